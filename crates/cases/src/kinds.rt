//! The two kinds of cells, reading cells into memory, and the numbers of refusals.
use cells::{Lift, Thread};
use grids::Refusal;
use readings::read_cells;
use std::cmp::Ordering;
use std::process::Abort;
use std::test::Fail;

/// Two lifts, and whether the first is equal to the second, before it (less) or after it (greater).
struct Lifts(Lift, Lift, Ordering);

/// The same of two threads, each a colour and a ply.
// Tables by kind: a literal of `Thread` in each row would be longer than a second type.
struct Threads((u16, u8), (u16, u8), Ordering);

/// A byte string, and the lift that it reads as.
struct LiftBytes(&'static [u8], Option<Lift>);

/// A byte string, and the colour and ply of the thread that it reads as.
struct ThreadBytes(&'static [u8], Option<(u16, u8)>);

/// A colour and the code of its threads.
struct Coded(u16, u8);

/// A refusal and its number.
struct Numbered(Refusal, u8);

/// How many lifts are read from which bytes into memory for three, all raised before; the answer,
/// and what the memory holds then.
struct Filling(usize, &'static [u8], Result<(), Refusal>, [Lift; 3]);

const S: Lift = Lift::Sunk;

const R: Lift = Lift::Raised;

static LIFTS: [Lifts; 4] = [
    Lifts(S, S, Ordering::Equal),
    Lifts(S, R, Ordering::Less),
    Lifts(R, S, Ordering::Greater),
    Lifts(R, R, Ordering::Equal),
];

static THREADS: [Threads; 7] = [
    Threads((3, 200), (3, 200), Ordering::Equal),
    Threads((3, 200), (4, 0), Ordering::Less),
    Threads((4, 0), (3, 200), Ordering::Greater),
    Threads((3, 0), (3, 255), Ordering::Less),
    Threads((3, 255), (3, 0), Ordering::Greater),
    Threads((255, 0), (256, 0), Ordering::Less),
    Threads((257, 0), (1, 0), Ordering::Greater),
];

static LIFT_BYTES: [LiftBytes; 9] = [
    LiftBytes(b"#", Some(R)),
    LiftBytes(b".", Some(S)),
    LiftBytes(b"", None),
    LiftBytes(b"##", None),
    LiftBytes(b"\x00", None),
    LiftBytes(b"\"", None),
    LiftBytes(b"$", None),
    LiftBytes(b"X", None),
    LiftBytes(b"\xff", None),
];

static THREAD_CODES: [Coded; 6] = [
    Coded(0, 0),
    Coded(63, 63),
    Coded(64, 0),
    Coded(127, 63),
    Coded(256, 0),
    Coded(65535, 63),
];

static THREAD_BYTES: [ThreadBytes; 7] = [
    ThreadBytes(b"", None),
    ThreadBytes(b"\x01\x02", None),
    ThreadBytes(b"\x01\x02\x03", Some((513, 3))),
    ThreadBytes(b"\x01\x00\x00", Some((1, 0))),
    ThreadBytes(b"\x01\x01\x00", Some((257, 0))),
    ThreadBytes(b"\xff\xff\xff", Some((65535, 255))),
    ThreadBytes(b"\x01\x02\x03\x04", None),
];

static FILLINGS: [Filling; 8] = [
    Filling(0, b"", Ok(()), [R, R, R]),
    Filling(2, b"..", Ok(()), [S, S, R]),
    Filling(3, b".#.", Ok(()), [S, R, S]),
    Filling(1, b".X", Ok(()), [S, R, R]),
    Filling(2, b".X", Err(Refusal::NoCell), [R, R, R]),
    Filling(3, b"..", Err(Refusal::NoCell), [R, R, R]),
    Filling(4, b"....", Err(Refusal::ShortStore), [R, R, R]),
    Filling(4, b"X", Err(Refusal::ShortStore), [R, R, R]),
];

static NUMBERS: [Numbered; 15] = [
    Numbered(Refusal::TileSize, 1),
    Numbered(Refusal::TileLength, 2),
    Numbered(Refusal::TileHeld, 3),
    Numbered(Refusal::BookFull, 4),
    Numbered(Refusal::NoSuchTile, 5),
    Numbered(Refusal::NotTrimmed, 6),
    Numbered(Refusal::ShortStore, 7),
    Numbered(Refusal::ShortWork, 8),
    Numbered(Refusal::DraftSize, 9),
    Numbered(Refusal::DraftLength, 9),
    Numbered(Refusal::LoomRange, 9),
    Numbered(Refusal::WindowEdge, 9),
    Numbered(Refusal::UnknownMark, 10),
    Numbered(Refusal::CutShort, 11),
    Numbered(Refusal::NoCell, 12),
];

fn thread(parts: (u16, u8)) -> Thread {
    let (colour, ply) = parts;
    Thread { colour, ply }
}

// Checks that each row of a table is met, and tells the number of the first that is not.
fn verify_rows<T, F: Fn(&T) -> bool>(rt: &impl Abort, table: &[T], met: F)
    requires { F.IsAlwaysCallable met }
{
    for (i, row) in table.iter().enumerate() {
        assert!(rt; met(row), "case {i}");
    }
}

#[test]
fn lifts_are_ordered_read_and_coded(rt: HostRuntime) {
    verify_rows(&rt, &LIFTS, |Lifts(x, y, order)| {
        (x.equals(*y), x.precedes(*y)) == (order.is_eq(), order.is_lt())
    });
    verify_rows(&rt, &LIFT_BYTES, |LiftBytes(bytes, lift)| {
        Lift::parse(bytes) == *lift
    });
    assert!(rt; S.code() == 0 && R.code() == 1 && Lift::bytes() == 1);
}

#[test]
fn threads_are_ordered_read_and_coded(rt: HostRuntime) {
    verify_rows(&rt, &THREADS, |Threads(x, y, order)| {
        let (x, y) = (thread(*x), thread(*y));
        (x.equals(y), x.precedes(y)) == (order.is_eq(), order.is_lt())
    });
    verify_rows(&rt, &THREAD_BYTES, |ThreadBytes(bytes, parts)| {
        Thread::parse(bytes).map(|x| (x.colour, x.ply)) == *parts
    });
    verify_rows(&rt, &THREAD_CODES, |Coded(colour, code)| {
        thread((*colour, 9)).code() == *code
    });
    assert!(rt; Thread::bytes() == 3);
}

#[test]
fn cells_fill_the_front_of_the_memory_or_nothing(rt: HostRuntime) {
    verify_rows(&rt, &FILLINGS, |Filling(count, bytes, answer, after)| {
        let mut memory = [R; 3];
        let got = read_cells::<Lift>(*count, bytes, &mut memory);
        got == *answer && memory == *after
    });
}

#[test]
fn refusals_have_their_numbers(rt: HostRuntime) {
    verify_rows(&rt, &NUMBERS, |Numbered(refusal, number)| {
        refusal.number() == *number
    });
}
