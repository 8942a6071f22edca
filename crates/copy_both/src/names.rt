//! Lists with commas.

ghost use Rattle.std.specs.Prelude.{◌≡◌, ◌<◌, ◌∷◌, [], IfOk, IfSome, length, position};
ghost use Rattle.std.specs.List.{slice_split};
ghost use Rattle.std.specs.Option.{option_copied, option_map_or};
ghost use Rattle.copy_both.specs.CommandTokens as spec;

use crate::token::{Token, is_comma, name_in};
use filter_tree::{Items, Text};
use std::alloc::{AllocError, Global};

fn first_comma(tokens: &[Token]) -> Option<usize>
    ensures { result ≡ position spec.is_comma tokens.now }
{
    tokens.iter().position(|token| is_comma(token))
}

/// The tokens before the first comma, and those after it if there is one.
pub fn split_comma(tokens: &[Token]) -> (&[Token], Option<&[Token]>)
    ensures split { slice_split spec.is_comma tokens.now
        ≡ result.0.now ∷ option_map_or (λ after. slice_split spec.is_comma after.now) result.1 [] }
    ensures fewer { IfSome result.1 (λ after. length after.now < length tokens.now) }
{
    let Some(place) = first_comma(tokens) else {
        return (tokens, None);
    };
    let (part, after) = tokens.split_at(place);
    (part, Some(after.split_at(1).1))
}

fn lone_name(tokens: &[Token]) -> Option<&str>
    ensures { option_copied result ≡ spec.lone_name tokens.now }
{
    match tokens {
        [token] => name_in(token),
        _ => None,
    }
}

/// The names in tokens, with commas between them.
pub fn names_in(alloc: Global, tokens: &[Token]) -> Result<Option<Items<Text>>, AllocError>
    ensures { IfOk result (λ names. names ≡ spec.names_in tokens.now) }
{
    let mut names = Vec::new(alloc);
    let mut rest = Some(tokens);
    while let Some(left) = rest {
        let (part, after) = split_comma(left);
        let Some(name) = lone_name(part) else {
            return Ok(None);
        };
        names.push(Text::from_str(alloc, name)?)?;
        rest = after;
    }
    Ok(Some(Items::from_vec(names)))
}
