//! What tokens know of the log, and how that changes.

ghost use Rattle.std.specs.Prelude.{◌≡◌};

use crate::receipt::Receipt;
use atomic_table::{Join, Play, Split, TableRule};
use std::collections::LinkedList;
use tables_log::CommitNumber;

/// The beginning of the log that a seat has seen, as its receipts, and the numbers of the seat's own commits. It is
/// only for proofs: no value of it is made.
pub struct Sight {
    pub seen: LinkedList<Receipt>,
    pub own: LinkedList<CommitNumber>,
}

/// What one token knows: whether it is the one that has the whole log, the log, and the sights that it has taken in. It
/// is only for proofs: no value of it is made.
pub struct HistoryView {
    pub keeps: bool,
    pub all: LinkedList<Receipt>,
    pub sights: LinkedList<Sight>,
}

/// What holds of all tokens between any two steps.
pub struct Keeps;

impl TableRule<Receipt, HistoryView, ()> for Keeps {
    ghost use Rattle.std.specs.Prelude.{[], true};
    ghost use Rattle.publisher_desk.specs.Sights.{IsKept, view_of};

    ghost holds = { λ _ s. IsKept s.views };

    ghost first = { λ _. view_of true [] [] };
}

/// A step that takes in the sight of a seat that has seen nothing.
pub struct Begins;

impl Play<Receipt, HistoryView> for Begins {
    ghost use Rattle.std.specs.Prelude.{◌≡◌};
    ghost use Rattle.publisher_desk.specs.Sights.{begun};

    ghost then = { λ _ before _ after. after ≡ (begun before.0, before.1) };
}

/// A step that shows the log to the sight that was taken in last.
pub struct Shows;

impl Play<Receipt, HistoryView> for Shows {
    ghost use Rattle.std.specs.Prelude.{◌≡◌};
    ghost use Rattle.publisher_desk.specs.Sights.{HasWholeLog, shown};

    ghost then = { λ _ before _ after. (after ≡ (shown before.0, before.1)) × HasWholeLog before.0 };
}

/// A step that changes nothing, and shows that the sights that were taken in agree with the log.
pub struct Checks;

impl Play<Receipt, HistoryView> for Checks {
    ghost use Rattle.std.specs.Prelude.{◌≡◌};
    ghost use Rattle.publisher_desk.specs.Sights.{HasWholeLog};

    ghost then = { λ _ before _ after. (after ≡ before) × HasWholeLog before.0 };
}

/// A step that adds the receipt that it announces to the log, and to the sight that was taken in last.
pub struct Adds;

impl Play<Receipt, HistoryView> for Adds {
    ghost use Rattle.std.specs.Prelude.{◌≡◌};
    ghost use mathlib.Core.Option.{some};
    ghost use Rattle.publisher_desk.specs.Receipts.{ReceiptOf};
    ghost use Rattle.publisher_desk.specs.Sights.{HasWholeLog, added};

    ghost then = { λ step before _ after. (receipt : ReceiptOf) × (step.said ≡ some receipt)
        × (after ≡ (added receipt before.0, before.1)) × HasWholeLog before.0 };
}

/// How one token gets the sight that another took in last, and how that takes it in.
pub struct Passes;

impl Split<HistoryView> for Passes {
    ghost use Rattle.publisher_desk.specs.Sights.{given, left};

    ghost left = { left };

    ghost right = { given };
}

impl Join<HistoryView> for Passes {
    ghost use Rattle.publisher_desk.specs.Sights.{joined, nobody};

    ghost both = { joined };

    ghost spent = { nobody };
}
