//! The keywords that the grammar names.

ghost use Rattle.std.specs.Str.{str_eq_ignore_ascii_case};
ghost use Rattle.std.specs.Prelude.{◌≡◌};
ghost use Rattle.sql_reader.specs.Keywords as spec;

/// A word with a meaning of its own in the grammar (PostgreSQL 15, "Appendix C. SQL Key Words").
#[derive(Clone, Copy, PartialEq, Eq)]
pub enum Keyword {
    All,
    And,
    Check,
    Constraint,
    Create,
    Default,
    Distinct,
    False,
    For,
    Foreign,
    From,
    In,
    Is,
    IsNull,
    Not,
    NotNull,
    Null,
    On,
    Only,
    Or,
    Primary,
    References,
    Table,
    True,
    Unique,
    Using,
    Where,
    With,
    Alter,
    Asymmetric,
    Between,
    Case,
    Connection,
    CurrentSchema,
    Full,
    Identity,
    If,
    Ilike,
    Index,
    Inherits,
    Key,
    Like,
    Nothing,
    Partition,
    Publication,
    Replica,
    Schema,
    Similar,
    Subscription,
    Symmetric,
    Tables,
    Text,
    Unknown,
}

/// The keyword that a word spells, in upper or lower case.
#[tactic(auto, unfolding(crate::specs::Keywords::keyword_of))]
pub fn keyword_of(word: &str) -> Option<Keyword>
    ensures { result ≡ spec.keyword_of word.now }
{
    match early_keyword(word) {
        Some(keyword) => Some(keyword),
        None => match late_keyword(word) {
            Some(keyword) => Some(keyword),
            None => match early_free_keyword(word) {
                Some(keyword) => Some(keyword),
                None => late_free_keyword(word),
            },
        },
    }
}

/// Whether a keyword cannot be an unquoted name.
pub fn is_reserved(keyword: Keyword) -> bool
    ensures { result ≡ spec.is_reserved keyword }
{
    match keyword {
        Keyword::Alter
        | Keyword::Asymmetric
        | Keyword::Between
        | Keyword::Case
        | Keyword::Connection
        | Keyword::CurrentSchema
        | Keyword::Full
        | Keyword::Identity
        | Keyword::If
        | Keyword::Ilike
        | Keyword::Index
        | Keyword::Inherits
        | Keyword::Key
        | Keyword::Like
        | Keyword::Nothing
        | Keyword::Partition
        | Keyword::Publication
        | Keyword::Replica
        | Keyword::Schema
        | Keyword::Similar
        | Keyword::Subscription
        | Keyword::Symmetric
        | Keyword::Tables
        | Keyword::Text
        | Keyword::Unknown => false,
        _ => true,
    }
}

/// The reserved words from ALL to ISNULL.
#[tactic(auto, unfolding(crate::specs::Keywords::early_keyword))]
fn early_keyword(word: &str) -> Option<Keyword>
    ensures { result ≡ spec.early_keyword word.now }
{
    if same_word(word, "all") {
        Some(Keyword::All)
    } else if same_word(word, "and") {
        Some(Keyword::And)
    } else if same_word(word, "check") {
        Some(Keyword::Check)
    } else if same_word(word, "constraint") {
        Some(Keyword::Constraint)
    } else if same_word(word, "create") {
        Some(Keyword::Create)
    } else if same_word(word, "default") {
        Some(Keyword::Default)
    } else if same_word(word, "distinct") {
        Some(Keyword::Distinct)
    } else if same_word(word, "false") {
        Some(Keyword::False)
    } else if same_word(word, "for") {
        Some(Keyword::For)
    } else if same_word(word, "foreign") {
        Some(Keyword::Foreign)
    } else if same_word(word, "from") {
        Some(Keyword::From)
    } else if same_word(word, "in") {
        Some(Keyword::In)
    } else if same_word(word, "is") {
        Some(Keyword::Is)
    } else if same_word(word, "isnull") {
        Some(Keyword::IsNull)
    } else {
        None
    }
}

/// The reserved words from NOT to WITH.
#[tactic(auto, unfolding(crate::specs::Keywords::late_keyword))]
fn late_keyword(word: &str) -> Option<Keyword>
    ensures { result ≡ spec.late_keyword word.now }
{
    if same_word(word, "not") {
        Some(Keyword::Not)
    } else if same_word(word, "notnull") {
        Some(Keyword::NotNull)
    } else if same_word(word, "null") {
        Some(Keyword::Null)
    } else if same_word(word, "on") {
        Some(Keyword::On)
    } else if same_word(word, "only") {
        Some(Keyword::Only)
    } else if same_word(word, "or") {
        Some(Keyword::Or)
    } else if same_word(word, "primary") {
        Some(Keyword::Primary)
    } else if same_word(word, "references") {
        Some(Keyword::References)
    } else if same_word(word, "table") {
        Some(Keyword::Table)
    } else if same_word(word, "true") {
        Some(Keyword::True)
    } else if same_word(word, "unique") {
        Some(Keyword::Unique)
    } else if same_word(word, "using") {
        Some(Keyword::Using)
    } else if same_word(word, "where") {
        Some(Keyword::Where)
    } else if same_word(word, "with") {
        Some(Keyword::With)
    } else {
        None
    }
}

/// The keywords from ALTER to KEY that may also be names.
#[tactic(auto, unfolding(crate::specs::Keywords::early_free_keyword))]
fn early_free_keyword(word: &str) -> Option<Keyword>
    ensures { result ≡ spec.early_free_keyword word.now }
{
    if same_word(word, "alter") {
        Some(Keyword::Alter)
    } else if same_word(word, "asymmetric") {
        Some(Keyword::Asymmetric)
    } else if same_word(word, "between") {
        Some(Keyword::Between)
    } else if same_word(word, "case") {
        Some(Keyword::Case)
    } else if same_word(word, "connection") {
        Some(Keyword::Connection)
    } else if same_word(word, "current_schema") {
        Some(Keyword::CurrentSchema)
    } else if same_word(word, "full") {
        Some(Keyword::Full)
    } else if same_word(word, "identity") {
        Some(Keyword::Identity)
    } else if same_word(word, "if") {
        Some(Keyword::If)
    } else if same_word(word, "ilike") {
        Some(Keyword::Ilike)
    } else if same_word(word, "index") {
        Some(Keyword::Index)
    } else if same_word(word, "inherits") {
        Some(Keyword::Inherits)
    } else if same_word(word, "key") {
        Some(Keyword::Key)
    } else {
        None
    }
}

/// The keywords from LIKE to UNKNOWN that may also be names.
#[tactic(auto, unfolding(crate::specs::Keywords::late_free_keyword))]
fn late_free_keyword(word: &str) -> Option<Keyword>
    ensures { result ≡ spec.late_free_keyword word.now }
{
    if same_word(word, "like") {
        Some(Keyword::Like)
    } else if same_word(word, "nothing") {
        Some(Keyword::Nothing)
    } else if same_word(word, "partition") {
        Some(Keyword::Partition)
    } else if same_word(word, "publication") {
        Some(Keyword::Publication)
    } else if same_word(word, "replica") {
        Some(Keyword::Replica)
    } else if same_word(word, "schema") {
        Some(Keyword::Schema)
    } else if same_word(word, "similar") {
        Some(Keyword::Similar)
    } else if same_word(word, "subscription") {
        Some(Keyword::Subscription)
    } else if same_word(word, "symmetric") {
        Some(Keyword::Symmetric)
    } else if same_word(word, "tables") {
        Some(Keyword::Tables)
    } else if same_word(word, "text") {
        Some(Keyword::Text)
    } else if same_word(word, "unknown") {
        Some(Keyword::Unknown)
    } else {
        None
    }
}

/// Whether two words differ only in the case of ASCII letters, if at all.
pub fn same_word(word: &str, other: &str) -> bool
    ensures { result ≡ str_eq_ignore_ascii_case word.now other.now }
{
    word.eq_ignore_ascii_case(other)
}
