//! The history of a publisher: its log as receipts, for proofs, and how a seat's receipts and readings agree with it.

ghost use Rattle.std.specs.Prelude.{◌≡◌};

use crate::naming::Publishing;
use crate::receipt::Receipt;
use crate::sight::{Adds, Begins, Checks, HistoryView, Keeps, Passes, Shows};
use atomic_table::{Seat, Table};
use std::alloc::Global;
use std::marker::{Model, PhantomData};
use std::sync::ledger::Total;

/// What a seat knows of the log. It takes no bytes. Contracts see it as the beginning of the log that the seat has
/// seen, and the numbers of its commits.
#[derive(Drop)]
pub(crate) struct HistoryToken<P: Publishing> {
    seat: Seat<Receipt, HistoryView>,
    of: PhantomData<Total<P>>,
}

impl<P: Publishing> Model for HistoryToken<P> {
    ghost use Rattle.std.specs.Prelude.{◌≡◌, []};
    ghost use Rattle.publisher_desk.specs.Sights.{first_in, holder};
    ghost use Rattle.publisher_desk.specs.declared.sight.Sight as s;

    ghost Value = { s.Sight };

    ghost view = { λ t. first_in t.seat.me.0.sights };

    ghost invariant = { λ t. (t.seat.table_id ≡ P.history) × (t.seat.me ≡ (holder (first_in t.seat.me.0.sights), [])) };
}

/// The log as receipts, for proofs, and the sights that were taken in. Only the holder of the lock has it. Contracts
/// see what its own token knows.
#[derive(Drop)]
pub(crate) struct History<P: Publishing> {
    table: Table<Receipt, HistoryView, (), Keeps, Global>,
    keeper: Seat<Receipt, HistoryView>,
    of: PhantomData<Total<P>>,
}

impl<P: Publishing> Model for History<P> {
    ghost use Rattle.std.specs.Prelude.{◌≡◌, [], true};
    ghost use Rattle.publisher_desk.specs.declared.sight.HistoryView as v;

    ghost Value = { v.HistoryView };

    ghost view = { λ h. h.keeper.me.0 };

    ghost invariant = { λ h. (h.table.shared.table_id ≡ P.history) × (h.keeper.table_id ≡ P.history)
        × (P.history.words ≡ 1) × (h.keeper.me.1 ≡ []) × (h.keeper.me.0.keeps ≡ true) };
}

impl<P: Publishing> History<P> {
    ghost use Rattle.std.specs.Prelude.{◌≡◌, ◌+◌, ◌<◌, List, [], ◌∷◌, ◌++◌, length, true};
    ghost use Rattle.publisher_desk.specs.Sights.{AddsTo, HasWholeLog, Sees, StartsWith, added, first_in, left, shown, sight_of, view_of};

    /// A history without receipts.
    pub(crate) fn new(
        table: Table<Receipt, HistoryView, (), Keeps, Global>,
        keeper: Seat<Receipt, HistoryView>,
    ) -> History<P>
        requires table { table.shared.table_id ≡ P.history }
        requires keeper { keeper.table_id ≡ P.history }
        requires word { P.history.words ≡ 1 }
        requires empty { keeper.me ≡ (view_of true [] [], []) }
        ensures { result ≡ view_of true [] [] }
    {
        History {
            table,
            keeper,
            of: PhantomData,
        }
    }

    /// Takes in what the seat knows; a seat without a token has seen nothing.
    pub(crate) fn take_in(&mut self, token: &mut Option<HistoryToken<P>>)
        ensures { self.new ≡ view_of true self.old.all (sight_of token.old ∷ self.old.sights) }
    {
        let History {
            table,
            keeper,
            of: _,
        } = self;
        match token.take() {
            Some(mine) => {
                let HistoryToken { seat, of: _ } = mine;
                table.shared.join_seat::<Passes>(keeper, seat);
            }
            None => {
                table.shared.load::<Begins>(keeper, 0);
            }
        }
    }

    /// Adds the receipt to the log, and to the sight that was taken in last.
    fn add(&mut self, receipt: &Receipt)
        requires { receipt.now.number ≡ length self.old.all + 1 }
        ensures added { self.new ≡ added receipt.now self.old }
        ensures whole { HasWholeLog self.old }
    {
        let History {
            table,
            keeper,
            of: _,
        } = self;
        table
            .shared
            .compare_exchange_with::<Adds>(keeper, 0, 0, 0, receipt);
    }

    /// Shows the log to the sight that was taken in last.
    fn show(&mut self)
        ensures shown { self.new ≡ shown self.old }
        ensures whole { HasWholeLog self.old }
    {
        let History {
            table,
            keeper,
            of: _,
        } = self;
        table.shared.load::<Shows>(keeper, 0);
    }

    /// Establishes that the sights that were taken in agree with the log.
    pub(crate) fn check(&mut self)
        ensures same { self.new ≡ self.old }
        ensures whole { HasWholeLog self.old }
    {
        let History {
            table,
            keeper,
            of: _,
        } = self;
        table.shared.load::<Checks>(keeper, 0);
    }

    /// A token with the sight that was taken in last.
    pub(crate) fn give_back(&mut self) -> HistoryToken<P>
        requires { 0 < length self.old.sights }
        ensures rest { self.new ≡ left self.old }
        ensures first { result ≡ first_in self.old.sights }
    {
        let History {
            table,
            keeper,
            of: _,
        } = self;
        let seat = table.shared.split_seat::<Passes>(keeper);
        HistoryToken {
            seat,
            of: PhantomData,
        }
    }

    /// Adds the receipt to the log, of which the seat then knows all.
    pub(crate) fn record(&mut self, token: &mut Option<HistoryToken<P>>, receipt: &Receipt)
        requires idle { self.old ≡ view_of true self.old.all [] }
        requires number { receipt.now.number ≡ length self.old.all + 1 }
        ensures log { self.new ≡ view_of true (self.old.all ++ receipt.now ∷ []) [] }
        ensures seen { AddsTo self.old.all receipt.now (sight_of token.old) (sight_of token.new) }
    {
        self.take_in(token);
        self.add(receipt);
        *token = Some(self.give_back());
    }

    /// Establishes that what the token has seen is a beginning of the log. The token knows no more than before.
    pub(crate) fn compare(&mut self, token: &mut Option<HistoryToken<P>>)
        requires idle { self.old ≡ view_of true self.old.all [] }
        ensures log { self.new ≡ self.old }
        ensures begins { StartsWith self.old.all (sight_of token.old).seen }
        ensures same { sight_of token.new ≡ sight_of token.old }
    {
        self.take_in(token);
        self.check();
        *token = Some(self.give_back());
    }

    /// Shows the log to the seat.
    pub(crate) fn look(&mut self, token: &mut Option<HistoryToken<P>>)
        requires idle { self.old ≡ view_of true self.old.all [] }
        ensures log { self.new ≡ self.old }
        ensures seen { Sees self.old.all (sight_of token.old) (sight_of token.new) }
    {
        self.take_in(token);
        self.show();
        *token = Some(self.give_back());
    }
}
