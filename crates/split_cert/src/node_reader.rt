//! Certificates as they are read, node by node.

ghost use Rattle.std.specs.Prelude.{◌≡◌, ◌<◌, ◌&&◌, ◌==◌, [], Some, IfErr, IfOk, false};
ghost use Rattle.filter_tree.specs.Memory.{Answers};
ghost use Rattle.split_cert.specs.declared.head.Kind.TheVariants.{Split};
ghost use Rattle.split_cert.specs.Nodes as spec;
ghost use Rattle.split_cert.specs.Where.{here_view};

use crate::cert::MAX_SPLITS;
use crate::cursor::Cursor;
use crate::error::CertError;
use crate::head::{Head, Kind};
use crate::levels::Levels;
use crate::node::Node;
use std::marker::Model;

/// A reader of the nodes of a certificate's text, each split before its branches. It allocates no memory.
#[derive(Drop)]
pub struct NodeReader<'a> {
    cursor: Cursor<'a>,
    levels: Levels,
    has_begun: bool,
}

impl<'a> Model for NodeReader<'a> {
    ghost Value = { spec.Stream };

    ghost view = { λ reader. spec.stream_at reader.has_begun reader.levels (here_view reader.cursor) };

    ghost invariant = { λ reader. reader.has_begun ≡ false → reader.levels ≡ [] };
}

/// The two words of the next node, which follow a space unless it is the first, and the cursor after them.
fn next_head<'a>(
    cursor: &Cursor<'a>,
    has_begun: bool,
    may_open: usize,
) -> Result<(Head, Cursor<'a>), CertError>
    ensures head { Answers (λ read. (read.0, here_view read.1)) (λ error. Some error)
        (spec.due has_begun may_open (here_view cursor.now)) result }
    ensures opens { IfOk result (λ read. read.0.kind ≡ Split → 0 < may_open) }
{
    let mut cursor = *cursor;
    if has_begun {
        cursor.space()?;
    }
    let head = cursor.head(may_open)?;
    Ok((head, cursor))
}

/// Whether no node follows. `splits` is the number of open splits that still have branches to come.
fn is_over(has_begun: bool, splits: usize) -> bool
    ensures { result ≡ (has_begun && (splits == 0)) }
{
    has_begun && splits == 0
}

/// Checks that the text has ended, if no node follows.
fn check_end(cursor: &Cursor<'_>) -> Result<(), CertError>
    ensures ok { IfOk result (λ _. spec.at_end (here_view cursor.now) ≡ spec.over) }
    ensures err { IfErr result (λ error. spec.at_end (here_view cursor.now) ≡ spec.fault error) }
{
    if cursor.is_at_end() {
        Ok(())
    } else {
        Err(CertError::Trailing(cursor.place()))
    }
}

impl<'a> NodeReader<'a> {
    ghost use Rattle.std.specs.Prelude.{◌≡◌};
    ghost use Rattle.split_cert.specs.Nodes as spec;

    /// A reader before the first node.
    pub fn new(text: &'a str) -> NodeReader<'a>
        ensures { result ≡ spec.nodes_in text.now }
    {
        NodeReader {
            cursor: Cursor::new(text),
            levels: Levels::new(),
            has_begun: false,
        }
    }

    /// The next node, or `None` after the last one.
    ///
    /// # Errors
    ///
    /// The first fault of the text, as `read_in` returns it. After the end and after a fault, the same result is
    /// returned again.
    pub fn next(&mut self) -> Result<Option<Node>, CertError>
        ensures { spec.TakesNode self.old result self.new }
    {
        self.levels.close();
        let splits = self.levels.len();
        if is_over(self.has_begun, splits) {
            check_end(&self.cursor)?;
            return Ok(None);
        }
        let (head, cursor) = next_head(&self.cursor, self.has_begun, MAX_SPLITS - splits)?;
        self.levels.enter(head.kind);
        self.cursor = cursor;
        self.has_begun = true;
        Ok(Some(Node::new(head)))
    }

    /// Reads the nodes that are left.
    ///
    /// # Errors
    ///
    /// The first fault of the text, if it has one.
    pub fn finish(&mut self) -> Result<(), CertError>
        ensures { result ≡ self.old.end }
    {
        loop {
            if self.next()?.is_none() {
                return Ok(());
            }
        }
    }
}
