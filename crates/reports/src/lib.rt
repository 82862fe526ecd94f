//! What all reports share: the lines that a program answers for a record file, one record after another.
#![tactic(auto)]

ghost use Rattle.std.specs.Prelude.{◌≡◌, [], ◌∷◌, ◌++◌, map, IfOk, OnOk};
ghost use Rattle.lines.specs.declared.Line.TheVariants.{TooLong};
ghost use Rattle.records.specs.Marks.{limit};
ghost use Rattle.records.specs.Entries.{entry};
ghost use Rattle.records.specs.Sound.{Sound};
ghost use Rattle.reports.specs.Reports.{place_line, Telling, says, next, report};
ghost use Rattle.reports.specs.Tiles.{body_tile, shown};

mod file_tile;

use cells::Cell;
use drafts::Draft;
pub use file_tile::{FileTile, TileRecord};
use grids::Position;
use lines::Line;
use records::{Reader, Record};
use sheets::ByteSheet;
use std::alloc::{AllocError, Global};

/// How many bytes an input may have.
pub const LONGEST: usize = 65535;

/// What is made of the records of a file, one after another, each tile as it stands there.
pub trait RecordReport<C: Cell> {
    /// What the report keeps from record to record.
    ghost State: { Type 0 };

    /// What it keeps now.
    ghost state: { Self → State };

    /// The lines that it adds for a record, and what it then keeps.
    ghost telling: { Telling C State };

    /// Takes up a tile, and adds the lines of it.
    fn tile(&mut self, tile: &TileRecord<'_, C>, lines: &mut Vec<Line>) -> Result<(), AllocError>
        ensures lines { OnOk result (lines.new.items ≡ lines.old.items ++ telling.tile_lines (state self.old) (body_tile C.Cell.reading tile.now.body)) }
        ensures state { OnOk result (state self.new ≡ telling.tile_state (state self.old) (body_tile C.Cell.reading tile.now.body)) };

    /// Takes up a draft, and adds the lines of it.
    fn draft<D: Draft<Cell = C>>(
        &mut self,
        draft: &mut D,
        lines: &mut Vec<Line>,
    ) -> Result<(), AllocError>
        ensures lines { OnOk result (lines.new.items ≡ lines.old.items ++ telling.draft_lines (state self.old) (D.Draft.shows draft.old)) }
        ensures state { OnOk result (state self.new ≡ telling.draft_state (state self.old) (D.Draft.shows draft.old)) };
}

/// What is made of the records of a file, one after another, each tile in memory of its own.
// Beside RecordReport: who implements this one is handed the cells and reads nothing.
pub trait Report<C: Cell> {
    /// What the report keeps from record to record.
    ghost State: { Type 0 };

    /// What it keeps now.
    ghost state: { Self → State };

    /// The lines that it adds for a record, and what it then keeps.
    ghost telling: { Telling C State };

    /// Takes up a tile, and adds the lines of it.
    fn tile(&mut self, tile: FileTile<C>, lines: &mut Vec<Line>) -> Result<(), AllocError>
        ensures lines { OnOk result (lines.new.items ≡ lines.old.items ++ telling.tile_lines (state self.old) (shown tile)) }
        ensures state { OnOk result (state self.new ≡ telling.tile_state (state self.old) (shown tile)) };

    /// Takes up a draft, and adds the lines of it.
    fn draft<D: Draft<Cell = C>>(
        &mut self,
        draft: &mut D,
        lines: &mut Vec<Line>,
    ) -> Result<(), AllocError>
        ensures lines { OnOk result (lines.new.items ≡ lines.old.items ++ telling.draft_lines (state self.old) (D.Draft.shows draft.old)) }
        ensures state { OnOk result (state self.new ≡ telling.draft_state (state self.old) (D.Draft.shows draft.old)) };
}

/// The lines of an input over 65,535 bytes.
pub fn too_long(heap: Global) -> Result<Vec<Line>, AllocError>
    ensures { IfOk result (λ v. v.items ≡ TooLong ∷ []) }
{
    let mut lines = Vec::new(heap);
    lines.push(Line::TooLong)?;
    Ok(lines)
}

/// The lines of a record file, by a report that reads the tiles itself.
pub fn report_records<C: Cell, R: RecordReport<C>>(
    heap: Global,
    reporter: &mut R,
    input: &[u8],
) -> Result<Vec<Line>, AllocError>
    ensures { IfOk result (λ v. v.items ≡ report (says R.RecordReport.telling C.Cell.reading) (next R.RecordReport.telling C.Cell.reading) C.Cell.reading (R.RecordReport.state reporter.old) input.now) }
{
    if input.len() > LONGEST {
        return too_long(heap);
    }
    let mut lines = Vec::new(heap);
    let mut reader = Reader::new(input);
    loop {
        match reader.next::<C>() {
            Ok(Some(record)) => report_record(reporter, record, &mut lines)?,
            Ok(None) => return Ok(lines),
            Err(fault) => {
                // By hand: lines knows no records, and records no lines.
                lines.push(Line::Fault {
                    number: fault.refusal.number(),
                    at: fault.at,
                })?;
                return Ok(lines);
            }
        }
    }
}

// Hands a record of the file to the report.
fn report_record<C: Cell, R: RecordReport<C>>(
    reporter: &mut R,
    record: Record<'_>,
    lines: &mut Vec<Line>,
) -> Result<(), AllocError>
    requires { Sound C.Cell.reading (limit (entry «record»).mark) (entry «record») }
    ensures lines { OnOk result (lines.new.items ≡ lines.old.items ++ says R.RecordReport.telling C.Cell.reading (R.RecordReport.state reporter.old) (entry «record».entry)) }
    ensures state { OnOk result (R.RecordReport.state reporter.new ≡ next R.RecordReport.telling C.Cell.reading (R.RecordReport.state reporter.old) (entry «record».entry)) }
{
    match record {
        Record::Tile(body) => reporter.tile(&TileRecord::new(body), lines),
        Record::Draft(body) => {
            let mut sheet = ByteSheet::<C>::over(body.rows, body.cols, body.cells).unwrap();
            reporter.draft(&mut sheet, lines)
        }
    }
}

/// The lines of a record file.
pub fn report_file<C: Cell + Default, R: Report<C>>(
    heap: Global,
    reporter: &mut R,
    input: &[u8],
) -> Result<Vec<Line>, AllocError>
    ensures { IfOk result (λ v. v.items ≡ report (says R.Report.telling C.Cell.reading) (next R.Report.telling C.Cell.reading) C.Cell.reading (R.Report.state reporter.old) input.now) }
{
    report_records(heap, &mut TilesRead { heap, reporter }, input)
}

// Reads each tile into memory of its own, and hands it to a report.
#[derive(Drop)]
struct TilesRead<'r, R> {
    heap: Global,
    reporter: &'r mut R,
}

impl<C: Cell + Default, R: Report<C>> RecordReport<C> for TilesRead<'_, R> {
    ghost State = { R.Report.State };

    ghost state = { λ t. R.Report.state t.reporter.now };

    ghost telling = { R.Report.telling };

    fn tile(&mut self, tile: &TileRecord<'_, C>, lines: &mut Vec<Line>) -> Result<(), AllocError> {
        let tile = FileTile::read(self.heap, tile)?;
        self.reporter.tile(tile, lines)
    }

    fn draft<D: Draft<Cell = C>>(
        &mut self,
        draft: &mut D,
        lines: &mut Vec<Line>,
    ) -> Result<(), AllocError> {
        self.reporter.draft(draft, lines)
    }
}

/// Adds a line for each place of the tile with a number.
pub fn push_places(
    tile: usize,
    places: &[Position],
    lines: &mut Vec<Line>,
) -> Result<(), AllocError>
    ensures { OnOk result (lines.new.items ≡ lines.old.items ++ map (place_line tile) places.now) }
{
    for place in places {
        lines.push(Line::Place {
            tile,
            row: place.row,
            col: place.col,
        })?;
    }
    Ok(())
}
