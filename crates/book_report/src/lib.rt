//! What the programs lookover and lookthreads answer: bytes in, lines out, for every kind of cells and
//! every engine.
#![tactic(auto)]

ghost use Rattle.std.specs.Prelude.{◌≡◌, ◌≤◌, [], ◌∷◌, ◌++◌, length, IfOk, OnOk, string_bytes};
ghost use Rattle.grids.specs.Refusals.{numbered};
ghost use Rattle.book.specs.Models.{Held, held, Stored};
ghost use Rattle.book.specs.Entering.{enter_answer, enter_state};
ghost use Rattle.reports.specs.Reports.{numbered_lines};
ghost use Rattle.reports.specs.Tiles.{body_tile};
ghost use Rattle.book_report.specs.Report.{Answers, Prints, enter_line, verdict_line, place_lines, telling};

use book::Book;
use cells::Cell;
use drafts::Draft;
use engine::Engine;
use grids::{Position, Refusal};
use lines::{Line, render};
use reports::{LONGEST, RecordReport, TileRecord, push_places, report_records, too_long};
use std::alloc::{AllocError, Global};

/// Enters the tiles of a record file in a book, and looks over its drafts by the tiles then held. Which
/// engine finds them does not change the lines.
pub fn book_report<C: Cell + Default, E: Engine<C>>(
    heap: Global,
    engine: &E,
    input: &[u8],
) -> Result<Vec<Line>, AllocError>
    ensures { IfOk result (λ v. Answers C.Cell.kind C.Cell.reading input.now v.items) }
{
    // Before memory is asked for; report_records would only see it after that.
    if input.len() > LONGEST {
        return too_long(heap);
    }
    let mut report = BookReport {
        engine,
        work: vec![in heap; 0; 12288]?,
        cells: Vec::new(heap),
        book: Book::new(),
        store: vec![in heap; C::default(); 4096]?,
    };
    report_records(heap, &mut report, input)
}

/// The text of that report.
// As find_text: a shared function could not name the report's own definitions.
pub fn book_text<C: Cell + Default, E: Engine<C>>(
    heap: Global,
    engine: &E,
    input: &[u8],
) -> anyhow::Result<String>
    ensures { IfOk result (λ s. Prints C.Cell.kind C.Cell.reading input.now (string_bytes s)) }
{
    let lines = book_report(heap, engine, input)?;
    let text = render(heap, lines.as_slice())?;
    Ok(text)
}

// A book with its store, and the engine with its work table that looks over drafts by it. Each tile of the
// file is read into the same memory.
#[derive(Drop)]
struct BookReport<'e, C, E> {
    engine: &'e E,
    work: Vec<u32>,
    cells: Vec<C>,
    book: Book,
    store: Vec<C>,
    ghost room: { 12288 ≤ length work.items },
    ghost stored: { Stored (held book store.items) },
}

impl<C: Cell + Default, E: Engine<C>> RecordReport<C> for BookReport<'_, C, E> {
    ghost State = { Held C };

    ghost state = { λ r. held r.book r.store.items };

    ghost telling = { telling C.Cell.kind };

    // Enters a tile, and says what came of it.
    fn tile(&mut self, tile: &TileRecord<'_, C>, lines: &mut Vec<Line>) -> Result<(), AllocError>
        ensures lines { OnOk result (lines.new.items ≡ lines.old.items ++ enter_line (body_tile C.Cell.reading tile.now.body).rows (body_tile C.Cell.reading tile.now.body).cols (enter_answer C.Cell.kind (held self.old.book self.old.store.items) (body_tile C.Cell.reading tile.now.body)) ∷ []) }
        ensures state { OnOk result (held self.new.book self.new.store.items ≡ enter_state C.Cell.kind (held self.old.book self.old.store.items) (body_tile C.Cell.reading tile.now.body)) }
    {
        self.cells.clear();
        tile.read_to(&mut self.cells)?;
        let view = tile.view(self.cells.as_slice());
        let answer = self.book.enter(self.store.as_mut_slice(), &view);
        lines.push(enter_line(view.rows, view.cols, answer))?;
        Ok(())
    }

    // Judges a draft, and adds the places of the tiles and the verdict.
    fn draft<D: Draft<Cell = C>>(
        &mut self,
        draft: &mut D,
        lines: &mut Vec<Line>,
    ) -> Result<(), AllocError> {
        let found = self
            .book
            .judge(
                self.store.as_slice(),
                self.engine,
                draft,
                self.work.as_mut_slice(),
            )
            .unwrap()
            .found;
        if found > 0 {
            self.push_tiles(draft, lines)?;
        }
        lines.push(verdict_line(draft.rows(), draft.cols(), found))?;
        Ok(())
    }
}

impl<C: Cell, E: Engine<C>> BookReport<'_, C, E> {
    // Adds the first places of each held tile in a draft, as many as the list has room for.
    fn push_tiles<D: Draft<Cell = C>>(
        &mut self,
        draft: &mut D,
        lines: &mut Vec<Line>,
    ) -> Result<(), AllocError>
        ensures lines { OnOk result (lines.new.items ≡ lines.old.items ++ numbered_lines (place_lines C.Cell.kind (D.Draft.shows draft.old)) 0 (held self.old.book self.old.store.items).tiles) }
        ensures same { OnOk result (D.Draft.shows draft.new ≡ D.Draft.shows draft.old) }
        ensures state { OnOk result (held self.new.book self.new.store.items ≡ held self.old.book self.old.store.items) }
    {
        let mut list = [Position::default(); 64];
        for n in 0..self.book.count() {
            let tile = self.book.tile(self.store.as_slice(), n).unwrap();
            let found = self
                .engine
                .find(draft, &tile.view, self.work.as_mut_slice(), &mut list)
                .unwrap();
            push_places(n, &list[..found.places.min(list.len())], lines)?;
        }
        Ok(())
    }
}

// What a tile's size and the answer of enter say.
fn enter_line(rows: usize, cols: usize, answer: Result<usize, Refusal>) -> Line
    ensures { result ≡ enter_line rows cols (numbered answer) }
{
    match answer {
        Ok(number) => Line::Entered { rows, cols, number },
        Err(refusal) => Line::Refused {
            number: refusal.number(),
        },
    }
}

// What a draft's size and the number of tiles found in it say.
fn verdict_line(rows: usize, cols: usize, found: usize) -> Line
    ensures { result ≡ verdict_line rows cols found }
{
    match found {
        0 => Line::Passed { rows, cols },
        tiles => Line::Stopped { rows, cols, tiles },
    }
}
