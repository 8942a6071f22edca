//! The parameters of a publication.

ghost use Rattle.std.specs.Prelude.{◌≡◌, IsSome};
ghost use Rattle.pub_reader.specs.Operations.{operations as operations_of};
ghost use Rattle.pub_reader.specs.Publishing as spec;
ghost use Rattle.sql_reader.specs.ParsingContracts.{Takes, TakesSome, to_read, item_ahead, written_ahead};

use crate::publish::operations;
use pub_catalog::Operations;
use sql_reader::{ErrorKind, Item, Keyword, ReadError, Reader, is_name_ahead, same_word};
use sql_tokens::Operator;

/// A parameter of CREATE PUBLICATION.
#[derive(Clone, Copy)]
pub enum Parameter {
    Publish,
    PartitionRoot,
}

/// The parameters given so far: the operations of `publish`, and whether `publish_via_partition_root` was given.
#[derive(Clone, Copy)]
pub struct Given {
    pub publishes: Option<Operations>,
    pub partition_root: bool,
}

const NONE_GIVEN: Given = Given {
    publishes: None,
    partition_root: false,
};

/// Reads the list of operations ahead.
#[tactic(auto, using(sql_reader::proofs::Ahead::rest_is_no_more))]
fn operations_taken(r: &mut Reader<'_>) -> Result<Operations, ReadError>
    requires { IsSome (item_ahead (to_read r.old)) }
    ensures { Takes (λ listed. listed) (spec.operations_taken (operations_of (written_ahead (to_read r.old))))
        r.old result r.new }
{
    match operations(r.written().as_bytes()) {
        Some(listed) => {
            r.advance();
            Ok(listed)
        }
        None => Err(r.refused(ErrorKind::UnknownName)),
    }
}

/// Reads the value of `publish`, a string or a word.
#[tactic(auto, unfolding(crate::specs::Publishing::operations_value))]
fn operations_value(r: &mut Reader<'_>) -> Result<Operations, ReadError>
    ensures { Takes (λ listed. listed) spec.operations_value r.old result r.new }
{
    match r.item() {
        Some(Item::Text) => operations_taken(r),
        Some(Item::Word) => operations_taken(r),
        Some(Item::Keyword(_)) => operations_taken(r),
        _ => Err(r.refusal("a list of operations")),
    }
}

/// Reads `publish` and its value.
#[tactic(auto, using(sql_reader::proofs::Ahead::rest_is_no_more), unfolding(crate::specs::Publishing::publish))]
fn publish(r: &mut Reader<'_>, given: Given) -> Result<Given, ReadError>
    ensures { TakesSome (λ given. given) (spec.publish given) r.old result r.new }
{
    r.advance();
    r.expect(Item::Operator(Operator::Equal), "`=`")?;
    let listed = operations_value(r)?;
    Ok(Given {
        publishes: Some(listed),
        partition_root: given.partition_root,
    })
}

/// Whether a word is a truth value.
fn is_boolean(word: &str) -> bool
    ensures { result ≡ spec.is_boolean word.now }
{
    same_word(word, "true")
        || same_word(word, "false")
        || same_word(word, "on")
        || same_word(word, "off")
}

/// Reads the value ahead, if it is a truth value.
#[tactic(auto, using(sql_reader::proofs::Ahead::rest_is_no_more))]
fn boolean_taken(r: &mut Reader<'_>, is_boolean: bool) -> Result<(), ReadError>
    ensures { Takes (λ u. u) (spec.boolean_taken is_boolean) r.old result r.new }
{
    if !is_boolean {
        return Err(r.refused(ErrorKind::TypeClash));
    }
    r.advance();
    Ok(())
}

/// Reads the value of `publish_via_partition_root`.
#[tactic(auto, unfolding(crate::specs::Publishing::boolean_value))]
fn boolean_value(r: &mut Reader<'_>) -> Result<(), ReadError>
    ensures { Takes (λ u. u) spec.boolean_value r.old result r.new }
{
    match r.item() {
        Some(Item::Number(number)) => boolean_taken(r, number == 0 || number == 1),
        Some(Item::Text) => boolean_taken(r, is_boolean(r.written())),
        Some(Item::Word) => boolean_taken(r, is_boolean(r.written())),
        Some(Item::Keyword(_)) => boolean_taken(r, is_boolean(r.written())),
        _ => Err(r.refusal("TRUE or FALSE")),
    }
}

/// Reads `=` and the value of `publish_via_partition_root`.
#[tactic(auto, unfolding(crate::specs::Publishing::given_boolean))]
fn given_boolean(r: &mut Reader<'_>) -> Result<(), ReadError>
    ensures { Takes (λ u. u) spec.given_boolean r.old result r.new }
{
    r.expect(Item::Operator(Operator::Equal), "`=`")?;
    boolean_value(r)
}

/// Reads the value of `publish_via_partition_root`, if there is one.
#[tactic(auto, unfolding(crate::specs::Publishing::boolean_or_none))]
fn boolean_or_none(r: &mut Reader<'_>) -> Result<(), ReadError>
    ensures { Takes (λ u. u) spec.boolean_or_none r.old result r.new }
{
    r.look()?;
    if r.is(Item::Operator(Operator::Equal)) {
        return Ok(given_boolean(r)?);
    }
    Ok(())
}

/// Reads `publish_via_partition_root`.
#[tactic(auto, using(crate::proofs::Rules::fewer_are_left), unfolding(crate::specs::Publishing::partition_root))]
fn partition_root(r: &mut Reader<'_>, given: Given) -> Result<Given, ReadError>
    requires { IsSome (item_ahead (to_read r.old)) }
    ensures { TakesSome (λ given. given) (spec.partition_root given) r.old result r.new }
{
    r.advance();
    boolean_or_none(r)?;
    Ok(Given {
        publishes: given.publishes,
        partition_root: true,
    })
}

/// The parameter that a word names.
fn parameter_named(word: &str) -> Option<Parameter>
    ensures { result ≡ spec.parameter_named word.now }
{
    if same_word(word, "publish") {
        Some(Parameter::Publish)
    } else if same_word(word, "publish_via_partition_root") {
        Some(Parameter::PartitionRoot)
    } else {
        None
    }
}

/// The parameter that the name ahead names.
fn parameter_ahead(r: &Reader<'_>) -> Option<Parameter>
    requires { IsSome (item_ahead (to_read r.now)) }
    ensures { result ≡ spec.parameter_by (item_ahead (to_read r.now)) (written_ahead (to_read r.now)) }
{
    match r.item() {
        Some(Item::QuotedName) => None,
        _ => parameter_named(r.written()),
    }
}

/// Reads a parameter, if it was not given before.
fn parameter_given(
    r: &mut Reader<'_>,
    parameter: Option<Parameter>,
    given: Given,
) -> Result<Given, ReadError>
    requires { IsSome (item_ahead (to_read r.old)) }
    ensures { TakesSome (λ given. given) (spec.parameter_given parameter given) r.old result r.new }
{
    match parameter {
        Some(Parameter::Publish) => {
            if given.publishes.is_some() {
                Err(r.refused(ErrorKind::NameTwice))
            } else {
                publish(r, given)
            }
        }
        Some(Parameter::PartitionRoot) => {
            if given.partition_root {
                Err(r.refused(ErrorKind::NameTwice))
            } else {
                partition_root(r, given)
            }
        }
        None => Err(r.refused(ErrorKind::UnknownName)),
    }
}

/// Reads a parameter.
#[tactic(auto, unfolding(crate::specs::Publishing::one_parameter))]
fn one_parameter(r: &mut Reader<'_>, given: Given) -> Result<Given, ReadError>
    ensures { TakesSome (λ given. given) (spec.one_parameter given) r.old result r.new }
{
    if !is_name_ahead(r) {
        return Err(r.refusal("a parameter"));
    }
    parameter_given(r, parameter_ahead(r), given)
}

/// Reads parameters, separated by commas.
#[tactic(auto, using(sql_reader::proofs::RepetitionLemmas::chains), unfolding(crate::specs::Publishing::parameters))]
fn parameters(r: &mut Reader<'_>) -> Result<Given, ReadError>
    ensures { TakesSome (λ given. given) spec.parameters r.old result r.new }
{
    let mut given = one_parameter(r, NONE_GIVEN)?;
    while r.next_is(Item::Comma)? {
        r.advance();
        given = one_parameter(r, given)?;
    }
    Ok(given)
}

/// Reads `WITH ( parameter , .. )`.
#[tactic(auto, unfolding(crate::specs::Publishing::parameter_list))]
fn parameter_list(r: &mut Reader<'_>) -> Result<Given, ReadError>
    ensures { TakesSome (λ given. given) spec.parameter_list r.old result r.new }
{
    r.expect(Item::Keyword(Keyword::With), "WITH")?;
    r.expect(Item::Open, "`(`")?;
    let given = parameters(r)?;
    r.expect(Item::Close, "`,` or `)`")?;
    Ok(given)
}

/// Reads the parameters, if there are any.
#[tactic(auto, unfolding(crate::specs::Publishing::parameters_clause))]
pub fn parameters_clause(r: &mut Reader<'_>) -> Result<Given, ReadError>
    ensures { Takes (λ given. given) spec.parameters_clause r.old result r.new }
{
    match r.item() {
        Some(Item::Keyword(Keyword::With)) => parameter_list(r),
        _ => Ok(NONE_GIVEN),
    }
}
