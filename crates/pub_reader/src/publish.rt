//! The list of operations that a publication publishes.

ghost use Rattle.std.specs.Prelude.{◌≡◌, ◌≤◌, ◌∷◌, length};
ghost use Rattle.std.specs.List.{prefix_len};
ghost use Rattle.pub_reader.specs.Operations as spec;

use pub_catalog::Operations;

const NO_OPERATION: Operations = Operations {
    insert: false,
    update: false,
    delete: false,
    truncate: false,
};

/// A text without the white space around it.
fn trimmed(text: &[u8]) -> &[u8]
    ensures { result.now ≡ spec.trimmed text.now }
{
    text.trim_ascii_start().trim_ascii_end()
}

/// The operations with one more added, if the word names one.
#[tactic(auto, unfolding(crate::specs::Operations::with_operation))]
fn with_operation(listed: Operations, word: &[u8]) -> Option<Operations>
    ensures { result ≡ spec.with_operation listed word.now }
{
    let mut listed = listed;
    if word.eq_ignore_ascii_case(b"insert") {
        listed.insert = true;
    } else if word.eq_ignore_ascii_case(b"update") {
        listed.update = true;
    } else if word.eq_ignore_ascii_case(b"delete") {
        listed.delete = true;
    } else if word.eq_ignore_ascii_case(b"truncate") {
        listed.truncate = true;
    } else {
        return None;
    }
    Some(listed)
}

/// How many bytes come before the first comma.
fn part_len(text: &[u8]) -> usize
    ensures value { result ≡ prefix_len spec.is_part_byte text.now }
    ensures within { result ≤ length text.now }
{
    let mut length = 0;
    while length < text.len() && text[length] != b',' {
        length += 1;
    }
    length
}

/// The part of a text before its first comma, and what follows that comma, if there is one.
fn first_part(text: &[u8]) -> (&[u8], Option<&[u8]>)
    ensures parts { spec.parts text.now ≡ result.0.now ∷ spec.parts_after result.1 }
    ensures shorter { spec.rest_length result.1 ≤ length text.now }
{
    let (part, following) = text.split_at(part_len(text));
    match following {
        [] => (part, None),
        [_, after @ ..] => (part, Some(after)),
    }
}

/// The operations that a text lists, separated by commas, if each word names one.
#[tactic(auto, unfolding(crate::specs::Operations::operations))]
pub fn operations(text: &[u8]) -> Option<Operations>
    ensures { result ≡ spec.operations text.now }
{
    if trimmed(text).is_empty() {
        return Some(NO_OPERATION);
    }
    let mut listed = NO_OPERATION;
    let mut rest = Some(text);
    while let Some(left) = rest {
        let (word, following) = first_part(left);
        listed = with_operation(listed, trimmed(word))?;
        rest = following;
    }
    Some(listed)
}
