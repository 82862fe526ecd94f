//! What the program lookfor answers: bytes in, lines out, for every kind of cells and every engine.
#![tactic(auto)]

ghost use Rattle.std.specs.Prelude.{◌≡◌, ◌≤◌, List, [], ◌∷◌, ◌++◌, length, IfOk, OnOk, string_bytes};
ghost use Rattle.grids.specs.Grids.{Tile};
ghost use Rattle.reports.specs.Tiles.{body_tile};
ghost use Rattle.find_report.specs.Report.{Answers, Prints, telling};
ghost use Rattle.find_report.specs.Kept.{cut, Kept, kept_prop};

use cells::Cell;
use drafts::Draft;
use engine::{Engine, TileView};
use grids::{Found, Position};
use lines::{Line, render};
use reports::{LONGEST, RecordReport, TileRecord, push_places, report_records, too_long};
use std::alloc::{AllocError, Global};

/// Looks through each draft of a record file for each tile that stands before it in the file. What is
/// reported of a tile are exactly its places, each once, in reading order.
pub fn find_report<C: Cell + Default, E: Engine<C>>(
    heap: Global,
    engine: &E,
    input: &[u8],
) -> Result<Vec<Line>, AllocError>
    ensures { IfOk result (λ v. Answers C.Cell.kind C.Cell.reading E.Engine.rule input.now v.items) }
{
    // Before memory is asked for; report_records would only see it after that.
    if input.len() > LONGEST {
        return too_long(heap);
    }
    let mut search = Search {
        heap,
        engine,
        work: vec![in heap; 0; 12288]?,
        sizes: Vec::new(heap),
        cells: Vec::new(heap),
    };
    report_records(heap, &mut search, input)
}

/// The text of that report.
// As book_text: a shared function could not name the report's own definitions.
pub fn find_text<C: Cell + Default, E: Engine<C>>(
    heap: Global,
    engine: &E,
    input: &[u8],
) -> anyhow::Result<String>
    ensures { IfOk result (λ s. Prints C.Cell.kind C.Cell.reading E.Engine.rule input.now (string_bytes s)) }
{
    let lines = find_report(heap, engine, input)?;
    let text = render(heap, lines.as_slice())?;
    Ok(text)
}

/// The size of a tile.
#[derive(Clone, Copy)]
struct Size {
    rows: usize,
    cols: usize,
}

// What is looked for in a draft: the tiles before it, by an engine with its work table. The cells of all
// tiles follow one another.
#[derive(Drop)]
struct Search<'a, C, E> {
    heap: Global,
    engine: &'a E,
    work: Vec<u32>,
    sizes: Vec<Size>,
    cells: Vec<C>,
    ghost room: { 12288 ≤ length work.items },
    ghost kept: { Kept sizes.items cells.items } by { kept_prop sizes.items cells.items },
}

impl<'a, C: Cell + Default, E: Engine<C>> RecordReport<C> for Search<'a, C, E> {
    ghost State = { List (Tile C) };

    ghost state = { λ s. cut s.sizes.items s.cells.items };

    ghost telling = { telling C.Cell.kind E.Engine.rule };

    // Keeps a tile for the drafts after it.
    fn tile(&mut self, tile: &TileRecord<'_, C>, lines: &mut Vec<Line>) -> Result<(), AllocError>
        ensures lines { OnOk result (lines.new.items ≡ lines.old.items ++ []) }
        ensures state { OnOk result (cut self.new.sizes.items self.new.cells.items ≡ cut self.old.sizes.items self.old.cells.items ++ body_tile C.Cell.reading tile.now.body ∷ []) }
    {
        // Room first, so that sizes and cells stay together where memory is wanting.
        self.sizes.reserve(1)?;
        tile.read_to(&mut self.cells)?;
        self.sizes.push_reserved(Size {
            rows: tile.body.rows,
            cols: tile.body.cols,
        });
        Ok(())
    }

    // Looks through a draft for each of the tiles; the list has room for all places.
    fn draft<D: Draft<Cell = C>>(
        &mut self,
        draft: &mut D,
        lines: &mut Vec<Line>,
    ) -> Result<(), AllocError> {
        let rows = draft.rows();
        let cols = draft.cols();
        let mut room = vec![in self.heap; Position::default(); rows * cols]?;
        let list = room.as_mut_slice();
        let work = self.work.as_mut_slice();
        let mut rest = self.cells.as_slice();
        for (n, size) in self.sizes.iter().enumerate() {
            let (cells, more) = rest.split_at(size.rows * size.cols);
            rest = more;
            let tile = TileView {
                rows: size.rows,
                cols: size.cols,
                cells,
            };
            let Found { places, looks } = self.engine.find(draft, &tile, work, list).unwrap();
            push_places(n, &list[..places], lines)?;
            lines.push(Line::Tile {
                tile: n,
                places,
                looks,
            })?;
        }
        lines.push(Line::Draft {
            rows,
            cols,
            tiles: self.sizes.len(),
        })?;
        Ok(())
    }
}
