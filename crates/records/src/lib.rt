//! Record files: drafts and tiles, each with its cells as a part of the file's bytes.
#![tactic(auto)]

ghost use Rattle.std.specs.Prelude.{◌≡◌, ◌+◌, ◌^◌, ◌<◌, length};
ghost use Rattle.grids.specs.Numbers.{number};
ghost use Rattle.grids.specs.Refusals.{first_failed, numbered_by, unless};
ghost use Rattle.records.specs.Marks.{Mark};
ghost use Rattle.records.specs.Entries.{handed_body, handed, answered};
ghost use Rattle.records.specs.Fronts.{mark_in, after_mark, body_checks, record_fault, parted, front, next_answer, handed_on, moved_to};

use cells::Cell;
use grids::{Refusal, sized};
use readings::all_read;
use std::marker::Model;

/// The size of a draft or tile, and its cells as they stand in the file.
// Not a view of a tile: these are bytes, as many for a cell as the kind says. That it is sound is no
// ghost field: an enum that holds such a struct and a reference is not covered.
#[derive(Clone, Copy)]
pub struct Body<'a> {
    pub rows: usize,
    pub cols: usize,
    pub cells: &'a [u8],
}

/// A record of a file.
#[derive(Clone, Copy)]
pub enum Record<'a> {
    Draft(Body<'a>),
    Tile(Body<'a>),
}

/// What is wrong with a record, and the byte where it begins.
#[derive(Clone, Copy)]
pub struct Fault {
    pub refusal: Refusal,
    pub at: usize,
}

// Reads what follows a record's mark, and hands on what follows the record.
fn read_body<'a, C: Cell>(
    input: &'a [u8],
    most: usize,
    bad_size: Refusal,
) -> Result<(Body<'a>, &'a [u8]), Refusal>
    ensures { (m : Mark) → numbered_by (handed_body m) result ≡ unless (first_failed (body_checks C.Cell.reading most (number bad_size) input.now)) (parted C.Cell.reading m input.now) }
{
    let [row_low, row_high, col_low, col_high, body @ ..] = input else {
        return Err(Refusal::CutShort);
    };
    let rows = u16::from_le_bytes([*row_low, *row_high]) as usize;
    let cols = u16::from_le_bytes([*col_low, *col_high]) as usize;
    if !sized(rows, cols, most) {
        return Err(bad_size);
    }
    let count = rows * cols;
    let size = count * C::BYTES;
    if body.len() < size {
        return Err(Refusal::CutShort);
    }
    if !all_read::<C>(count, body) {
        return Err(Refusal::NoCell);
    }
    let (cells, rest) = body.split_at(size);
    Ok((Body { rows, cols, cells }, rest))
}

/// Reads the record at the front of the input, and hands on what follows it.
pub fn read_record<'a, C: Cell>(input: &'a [u8]) -> Result<(Record<'a>, &'a [u8]), Refusal>
    ensures { numbered_by handed result ≡ unless (record_fault C.Cell.reading input.now) (parted C.Cell.reading (mark_in input.now) (after_mark input.now)) }
{
    let [first, second, rest @ ..] = input else {
        return Err(Refusal::CutShort);
    };
    match (*first, *second) {
        (b'D', b'R') => {
            let (body, next) = read_body::<C>(rest, 2048, Refusal::DraftSize)?;
            Ok((Record::Draft(body), next))
        }
        (b'T', b'L') => {
            let (body, next) = read_body::<C>(rest, 32, Refusal::TileSize)?;
            Ok((Record::Tile(body), next))
        }
        _ => Err(Refusal::UnknownMark),
    }
}

/// A reader of a record file: the part that is not read yet, and the byte where it begins.
#[derive(Drop)]
pub struct Reader<'a> {
    rest: &'a [u8],
    at: usize,
}

impl<'a> Model for Reader<'a> {
    ghost use Rattle.std.specs.Prelude.{◌+◌, ◌^◌, ◌<◌, length};
    ghost use Rattle.records.specs.Unread.{Unread};

    ghost Value = { Unread };

    ghost view = { λ a. record { bytes = a.rest.now; at = a.at } };

    ghost invariant = { λ a. a.at + length a.rest.now < 2 ^ 64 };
}

impl<'a> Reader<'a> {
    pub fn new(input: &'a [u8]) -> Reader<'a>
        ensures { result ≡ record { bytes = input.now; at = 0 } }
    {
        Reader { rest: input, at: 0 }
    }

    /// The next record, or nothing at the end. At a fault the reader stays.
    pub fn next<C: Cell>(&mut self) -> Result<Option<Record<'a>>, Fault>
        ensures answer { answered result ≡ next_answer self.old.at (front C.Cell.reading self.old.bytes) }
        ensures rest { self.new.bytes ≡ handed_on self.old.bytes (front C.Cell.reading self.old.bytes) }
        ensures at { self.new.at ≡ moved_to self.old.at (front C.Cell.reading self.old.bytes) }
    {
        if self.rest.is_empty() {
            return Ok(None);
        }
        match read_record::<C>(self.rest) {
            Ok((record, rest)) => {
                self.at += self.rest.len() - rest.len();
                self.rest = rest;
                Ok(Some(record))
            }
            Err(refusal) => Err(Fault {
                refusal,
                at: self.at,
            }),
        }
    }
}
