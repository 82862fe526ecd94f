//! Judging a draft.
ghost use Rattle.std.specs.Prelude.{◌≡◌, ◌^◌, ◌<◌, ◌≤◌, length, OnErr, OnOk, slice_index_or, slice_set};
ghost use Rattle.std.specs.List.{AllByRecursion};
ghost use Rattle.grids.specs.Grids.{laid};
ghost use Rattle.grids.specs.Places.{Exact};
ghost use Rattle.grids.specs.Refusals.{numbered, unless};
ghost use Rattle.drafts.specs.Tallies.{raised};
ghost use Rattle.engine.specs.Views.{viewed};
ghost use Rattle.engine.specs.Finding.{finding};
ghost use Rattle.book.specs.Table.{no_entry, stopped};
ghost use Rattle.book.specs.Models.{held};
ghost use Rattle.book.specs.Judging.{judge_refusal, verdict, judged, Judges, judge_tally};

use crate::held_tiles::HeldTiles;
use crate::{Book, TableEntry, Verdict};
use cells::Cell;
use drafts::Draft;
use engine::{Engine, ValidTile, check_work};
use grids::{Found, Refusal};

impl TableEntry {
    // One stop more; 65,535 stays.
    fn raise(&mut self)
        ensures { self.new ≡ stopped self.old }
    {
        self.stops = self.stops.saturating_add(1);
    }
}

// Finds an accepted tile in a draft, with no list of places.
fn find_tile<C: Cell, E: Engine<C>, D: Draft<Cell = C>>(
    engine: &E,
    draft: &mut D,
    tile: &ValidTile<'_, C>,
    work: &mut [u32],
) -> Found
    requires { 12288 ≤ length work.old }
    ensures answer { result ≡ finding C.Cell.kind E.Engine.rule (D.Draft.shows draft.old) (laid (viewed tile.now.view)) }
    ensures few { result.looks ≤ 2 ^ 33 }
    ensures same { D.Draft.shows draft.new ≡ D.Draft.shows draft.old }
    ensures counts { D.Draft.tally draft.new ≡ raised (D.Draft.tally draft.old) result.looks }
{
    engine.find(draft, &tile.view, work, &mut []).unwrap()
}

impl Book {
    /// Finds every tile in a draft by an engine, and raises the stop count of each tile found.
    pub fn judge<C: Cell, E: Engine<C>, D: Draft<Cell = C>>(
        &mut self,
        store: &[C],
        engine: &E,
        draft: &mut D,
        work: &mut [u32],
    ) -> Result<Verdict, Refusal>
        ensures judges { Judges C.Cell.kind E.Engine.rule (D.Draft.shows draft.old) (length work.old) (held self.old store.now) (numbered result) (held self.new store.now) }
        ensures exact { OnOk result (AllByRecursion (Exact C.Cell.kind (D.Draft.shows draft.old)) (held self.old store.now).tiles) }
        ensures same { D.Draft.shows draft.new ≡ D.Draft.shows draft.old }
        ensures counts { D.Draft.tally draft.new ≡ judge_tally E.Engine.rule (D.Draft.shows draft.old) (length work.old) (held self.old store.now) (D.Draft.tally draft.old) }
        ensures untouched { OnErr result ((self.new ≡ self.old) × (draft.new ≡ draft.old) × (work.new ≡ work.old)) }
    {
        self.check_judge(store, work.len())?;
        Ok(self.judge_all(store, engine, draft, work))
    }

    // Refuses a store without all cells held, and then a work table of so many words.
    fn check_judge<C>(&self, store: &[C], words: usize) -> Result<(), Refusal>
        ensures { numbered result ≡ unless (judge_refusal (held self.now store.now) words) tt }
    {
        self.tiles_in(store, 0)?;
        check_work(words)
    }

    // Finds every tile, in book order, and raises the stop count of each tile found.
    fn judge_all<C: Cell, E: Engine<C>, D: Draft<Cell = C>>(
        &mut self,
        store: &[C],
        engine: &E,
        draft: &mut D,
        work: &mut [u32],
    ) -> Verdict
        requires { judge_refusal (held self.old store.now) (length work.old) ≡ None }
        ensures answer { result ≡ verdict C.Cell.kind E.Engine.rule (D.Draft.shows draft.old) (held self.old store.now).tiles }
        ensures state { held self.new store.now ≡ judged C.Cell.kind (D.Draft.shows draft.old) (held self.old store.now) }
        ensures same { D.Draft.shows draft.new ≡ D.Draft.shows draft.old }
        ensures counts { D.Draft.tally draft.new ≡ raised (D.Draft.tally draft.old) result.looks }
    {
        let mut sum = Verdict { found: 0, looks: 0 };
        for n in 0..self.count {
            let tile = HeldTiles { book: self, store }.get(n);
            let Found { places, looks } = find_tile(engine, draft, &tile, work);
            sum.looks += looks;
            if places > 0 {
                self.raise(n);
                sum.found += 1;
            }
        }
        sum
    }

    // Raises the stop count of a tile in the table. The number is a loop's own, as in get: a type for
    // it would be no plainer.
    fn raise(&mut self, number: usize)
        requires { number < self.old.count }
        ensures entries { self.new.entries ≡ slice_set self.old.entries number (stopped (slice_index_or self.old.entries number no_entry)) }
        ensures count { self.new.count ≡ self.old.count }
        ensures trimmed { self.new.trimmed ≡ self.old.trimmed }
    {
        self.entries[number].raise();
    }
}
