//! Model files, written and analysed: each test is a table of files, and of what comes of them.
use crate::analysis::{analyse, analyse_as};
use crate::fault::Fault;
use crate::host::analyse_for_c;
use crate::read::read;
use crate::tests::model_files::Piece::{Cut, End, Head, Needs, Of, Pair, Part, Parts, Steps, Word};
use diagram::refusal::Refusal;
use kinds::values;
use kinds::values::Flow;
use std::io::{Cursor, Write};
use terms::term::Term;

// A performance is one number here, its first word times 2^32 and its second: out is 1 and 0.
const TOP: u64 = 4294967295;

const OUT: u64 = 4294967296;

// What is put into a file.
#[derive(Clone, Copy)]
enum Piece {
    // Nothing.
    End,
    // So many bytes are taken away again.
    Cut(u8),
    // A letter and a count, or any two bytes.
    Head(u8, u8),
    // A performance or a weight.
    Word(u64),
    // A part of so many states: 0, 1, .. of weight 1. So many such parts.
    Part(u8),
    Parts(u8, u8),
    // A part of so many states by this step.
    Steps(u8, u64),
    // A letter, and so many children, from node 0 on.
    Of(u8, u8),
    // Two children in parallel.
    Pair(u8, u8),
    // So many demands: 0, 1, ..
    Needs(u8),
}

// As many bytes as the program hands over.
#[derive(Clone, Copy)]
struct File {
    bytes: [u8; 50_001],
    len: usize,
}

impl File {
    fn new(model: u8, records: u8, pieces: [Piece; 4]) -> File {
        let mut file = File {
            bytes: [0; 50_001],
            len: 0,
        };
        file.head(model, records);
        for piece in pieces {
            file.put(piece);
        }
        file
    }

    fn written(&self) -> &[u8] {
        &self.bytes[..self.len.min(50_001)]
    }

    fn push(&mut self, b: u8) {
        if self.len < 50_001 {
            self.bytes[self.len] = b;
            self.len += 1;
        }
    }

    fn head(&mut self, letter: u8, count: u8) {
        self.push(letter);
        self.push(count);
    }

    fn word(&mut self, n: u64) {
        for b in n.to_be_bytes() {
            self.push(b);
        }
    }

    fn part(&mut self, count: u8, step: u64) {
        self.head(b'P', count);
        let mut performance: u64 = 0;
        for _ in 0..count {
            self.word(performance);
            self.word(1);
            performance = performance.saturating_add(step);
        }
    }

    fn put(&mut self, piece: Piece) {
        match piece {
            End => {}
            Cut(count) => self.len = self.len.saturating_sub(usize::from(count)),
            Head(letter, count) => self.head(letter, count),
            Word(n) => self.word(n),
            Part(count) => self.part(count, 1),
            Parts(parts, count) => {
                for _ in 0..parts {
                    self.part(count, 1);
                }
            }
            Steps(count, step) => self.part(count, step),
            Of(letter, count) => {
                self.head(letter, count);
                for k in 0..count {
                    self.push(k);
                }
            }
            Pair(first, second) => {
                self.head(b'L', 2);
                self.head(first, second);
            }
            Needs(count) => {
                self.head(b'Q', count);
                for i in 0..count {
                    self.word(u64::from(i));
                }
            }
        }
    }
}

// The length of the report, or the layer, the record and the number of the fault.
fn told(answer: Result<usize, Fault>) -> Result<usize, (u8, u8, u8)> {
    match answer {
        Ok(len) => Ok(len),
        Err(fault) => Err((fault.layer(), fault.record(), fault.number())),
    }
}

// A number of records, what is put after it, and the fault: of files of model 1.
#[test]
fn the_first_no_is_told(rt: HostRuntime) {
    let mut output = [0; 3328];
    let mut done: usize = 0;
    for (records, pieces, layer, record, number) in [
        (2, [Cut(1), End, End, End], 1, 255, 22),
        (0, [Part(1), Needs(1), End, End], 1, 255, 22),
        (1, [Part(1), Needs(1), End, End], 1, 255, 22),
        (50, [Parts(49, 1), Needs(1), End, End], 1, 255, 22),
        (2, [End, End, End, End], 1, 0, 23),
        (2, [Head(b'P', 0), Cut(1), End, End], 1, 0, 23),
        (2, [Head(b'R', 0), Needs(1), End, End], 1, 0, 23),
        (3, [Part(1), Needs(1), End, End], 1, 1, 23),
        (2, [Part(1), Part(1), End, End], 1, 1, 23),
        (2, [Part(1), Needs(0), Cut(1), End], 1, 1, 23),
        (2, [Part(1), End, End, End], 1, 1, 23),
        (2, [Part(1), Cut(1), End, End], 1, 0, 24),
        (2, [Part(255), Cut(1), End, End], 1, 0, 24),
        (4, [Parts(2, 1), Of(b'S', 2), Cut(1), End], 1, 2, 24),
        (4, [Parts(2, 1), Of(b'L', 255), Cut(1), End], 1, 2, 24),
        (2, [Of(b'B', 5), Cut(1), End, End], 1, 0, 24),
        (2, [Of(b'B', 4), Needs(1), End, End], 1, 0, 24),
        (2, [Of(b'B', 6), Needs(1), End, End], 1, 0, 24),
        (2, [Part(1), Needs(0), End, End], 1, 1, 24),
        (2, [Part(1), Needs(17), End, End], 1, 1, 24),
        (2, [Part(1), Needs(16), Cut(1), End], 1, 1, 24),
        (2, [Head(b'P', 2), Word(OUT), Word(1), End], 1, 0, 24),
        (2, [Part(65), Cut(16), Word(OUT), Word(1)], 1, 0, 26),
        (2, [Part(1), Head(b'Q', 1), Word(OUT), Word(1)], 1, 1, 26),
        (2, [Part(1), Needs(1), Head(0, 0), Cut(1)], 1, 255, 25),
        (
            4,
            [Parts(2, 33), Pair(0, 1), Needs(1), Needs(1)],
            1,
            255,
            25,
        ),
        (2, [Part(0), Head(0, 0), End, End], 2, 0, 3),
        (2, [Part(65), End, End, End], 2, 0, 3),
        (2, [Part(255), End, End, End], 2, 0, 3),
        (3, [Part(1), Of(b'S', 0), End, End], 2, 1, 4),
        (3, [Part(1), Of(b'L', 1), End, End], 2, 1, 4),
        (11, [Parts(9, 1), Of(b'S', 9), End, End], 2, 9, 4),
        (2, [Of(b'L', 9), End, End, End], 2, 0, 4),
        (2, [Of(b'S', 255), End, End, End], 2, 0, 4),
        (2, [Of(b'S', 8), End, End, End], 2, 0, 5),
        (3, [Part(1), Pair(0, 1), End, End], 2, 1, 5),
        (4, [Part(1), Pair(0, 2), Part(1), End], 2, 1, 5),
        (3, [Part(1), Pair(255, 255), End, End], 2, 1, 5),
        (6, [Parts(4, 1), Of(b'B', 5), End, End], 2, 4, 5),
        (5, [Parts(2, 1), Of(b'S', 2), Pair(0, 3), End], 2, 3, 5),
        (5, [Parts(2, 1), Of(b'S', 2), Pair(2, 0), End], 2, 3, 6),
        (5, [Parts(2, 1), Of(b'S', 2), Pair(1, 1), End], 2, 3, 6),
        (8, [Parts(5, 1), Pair(0, 4), Of(b'B', 5), End], 2, 6, 6),
        (3, [Part(1), Pair(0, 0), End, End], 2, 1, 7),
        (7, [Parts(4, 1), Part(25), Of(b'B', 5), Needs(1)], 2, 5, 11),
        (7, [Part(25), Parts(4, 1), Of(b'B', 5), Needs(1)], 2, 5, 11),
        (4, [Part(8), Steps(9, 8), Pair(0, 1), Needs(1)], 2, 2, 12),
        (5, [Parts(2, 33), Pair(0, 1), Part(1), Needs(1)], 2, 2, 12),
    ] {
        let file = File::new(1, records, pieces);
        assert_eq!(rt;
            told(analyse(file.written(), &mut output)),
            Err((layer, record, number)),
            "after {done} files"
        );
        done = done.saturating_add(1);
    }
    assert_eq!(rt; analyse(&[], &mut output), Err(Fault::Model));
    for model in [0, 8, 9, 255] {
        let file = File::new(model, 2, [Part(1), Needs(1), End, End]);
        assert_eq!(rt; analyse(file.written(), &mut output), Err(Fault::Model));
        assert_eq!(rt; analyse(&[model], &mut output), Err(Fault::Model));
    }
}

// A number of records, what is put after it, and the length of the report; the largest file, of
// 49,380 bytes, is the last. In the longest report each figure has ten digits, so that each of the
// 16 needs takes 56 bytes and each of the 64 terms 38: 3,328 in all.
#[test]
fn what_is_no_more_than_the_most_is_accepted(rt: HostRuntime) {
    let mut output = [0; 3328];
    for (records, pieces, len) in [
        (2, [Part(1), Needs(1), End, End], 31),
        (3, [Parts(2, 1), Needs(1), End, End], 31),
        (10, [Parts(8, 1), Of(b'S', 8), Needs(1), End], 31),
        (7, [Parts(3, 24), Parts(2, 3), Of(b'B', 5), Needs(1)], 105),
        (4, [Part(8), Steps(8, 8), Pair(0, 1), Needs(1)], 780),
        (4, [Parts(2, 32), Pair(0, 1), Needs(1), End], 817),
        (49, [Parts(47, 64), Steps(64, 9), Needs(16), End], 1176),
    ] {
        let file = File::new(1, records, pieces);
        assert_eq!(rt; analyse(file.written(), &mut output), Ok(len));
        assert!(rt; records < 49 || file.len == 49_380);
    }
    assert_eq!(rt; &output[1163..1176], b"term 0 567 1\n".as_slice());
    let mut longest = File::new(5, 2, [Head(b'P', 64), End, End, End]);
    for i in 0..64 {
        longest.word((TOP - 1) * OUT + TOP - i);
        longest.word(TOP - 1);
    }
    longest.head(b'Q', 16);
    for i in 0..16 {
        longest.word((TOP - 1) * OUT + TOP - i);
    }
    assert_eq!(rt; analyse(longest.written(), &mut output), Ok(3328));
    let mut short = [0; 3327];
    assert_eq!(rt; analyse(longest.written(), &mut short), Err(Fault::Room));
}

// A performance, and the first and the last model that hold it; a weight of 32 bits, and one past
// them.
#[test]
fn each_model_holds_what_it_can_write(rt: HostRuntime) {
    let mut output = [0; 100];
    for (performance, first, last) in [
        (TOP, 1, 7),
        (OUT, 5, 7),
        (OUT + 1, 5, 5),
        (OUT + OUT, 5, 5),
        (18446744073709551615, 5, 5),
    ] {
        for model in 1..8 {
            let bad = model < first || last < model;
            let p = Word(performance);
            for (weight, is_bad) in [(TOP, bad), (TOP + 1, true)] {
                let file = File::new(model, 2, [Head(b'P', 1), p, Word(weight), Needs(1)]);
                let found = analyse(file.written(), &mut output) == Err(Fault::Value(0));
                assert_eq!(rt; found, is_bad, "{performance} of {weight} in model {model}");
            }
            let file = File::new(model, 2, [Part(1), Head(b'Q', 1), p, End]);
            let found = analyse(file.written(), &mut output) == Err(Fault::Value(1));
            assert_eq!(rt; found, bad, "a demand of {performance} in model {model}");
        }
    }
}

const REPORTS: &[u8] = b"\
need 0 6 met 6 of 8
need 0 0 met 8 of 8
term 0 5 2
term 0 4294967295 6
need 0 7 met 72 of 100
need 0 4294967295 met 90 of 100
term 0 7 72
term 0 13 18
term 0 4294967295 10
need 0 1 met 12 of 15
need 0 2 met 7 of 15
term 0 0 4
term 0 1 8
term 0 2 3
need 0 0 met 0 of 0
need 0 1 met 0 of 0
need 0 3 met 90 of 100
need 0 5 met 82 of 100
term 0 0 72
term 0 3 18
term 0 5 10
need 0 3 met 92 of 100
need 0 5 met 80 of 100
term 0 0 72
term 0 3 20
term 0 5 8
need 5 5 met 7 of 5
need 1 1 met 4294967295 of 5
term 4 4 5
term 5 6 7
need 0 0 met 4294967295 of 4294967295
need 0 1 met 4294967295 of 4294967295
need 1 0 met 6 of 8
need 0 6 met 0 of 8
term 1 0 2
term 0 5 6
need 1 0 met 26 of 28
need 0 9 met 20 of 28
term 1 0 2
term 0 4 20
term 0 4294967295 6
";

// A model, two states of each of two parts, how they are joined, and two demands. The reports come
// one after the other.
#[test]
fn each_model_answers_as_its_kind(rt: HostRuntime) {
    let mut output = [0; 1000];
    let mut done: usize = 0;
    for (model, states, letter, needs) in [
        (1, [0, 1, TOP, 3, 5, 2, 0, 0], b'L', [6, 0]),
        (2, [3, 9, TOP, 1, 4, 8, 10, 2], b'S', [7, TOP]),
        (3, [0, 7, 1, 8, 0, 12, 2, 3], b'S', [1, 2]),
        (3, [0, 1, 1, 2, 0, 4, 1, 8], b'S', [0, 1]),
        (4, [0, 9, 5, 1, 0, 8, 3, 2], b'S', [3, 5]),
        (4, [0, 8, 3, 2, 0, 9, 5, 1], b'S', [3, 5]),
        (
            5,
            [2 * OUT + 9, 5, OUT + 4, 3, 3 * OUT + 6, 2, 0, TOP],
            b'S',
            [5 * OUT + 5, OUT + 1],
        ),
        (5, [0, TOP, 1, TOP, 0, 1, 1, 1], b'L', [0, 1]),
        (6, [OUT, 1, 5, 3, 7, 2, 0, 0], b'S', [OUT, 6]),
        (7, [OUT, 1, TOP, 3, OUT, 2, 4, 5], b'L', [OUT, 9]),
    ] {
        let [a, b, c, d, e, f, g, h] = states;
        let mut file = File::new(model, 4, [Head(b'P', 2), Word(a), Word(b), Word(c)]);
        for piece in [
            Word(d),
            Head(b'P', 2),
            Word(e),
            Word(f),
            Word(g),
            Word(h),
            Of(letter, 2),
        ] {
            file.put(piece);
        }
        file.head(b'Q', 2);
        for need in needs {
            file.word(need);
        }
        let len = analyse(file.written(), &mut output[done.min(1000)..]).unwrap_or(1000);
        done = done.saturating_add(len);
    }
    assert_eq!(rt; &output[..done.min(1000)], REPORTS);
}

const PLANT: &[u8] = b"\x01\x06\
P\x02\0\0\0\0\0\0\0\0\0\0\0\0\0\0\0\x01\0\0\0\0\0\0\0\x03\0\0\0\0\0\0\0\x09\
P\x02\0\0\0\0\0\0\0\0\0\0\0\0\0\0\0\x02\0\0\0\0\0\0\0\x02\0\0\0\0\0\0\0\x08\
L\x02\x00\x01\
P\x02\0\0\0\0\0\0\0\x04\0\0\0\0\0\0\0\x07\0\0\0\0\0\0\0\0\0\0\0\0\0\0\0\x03\
S\x02\x02\x03\
Q\x02\0\0\0\0\0\0\0\x03\0\0\0\0\0\0\0\x05";

const PLANT_REPORT: &[u8] = b"\
need 0 3 met 630 of 1000
need 0 5 met 0 of 1000
term 0 0 314
term 0 2 56
term 0 3 126
term 0 4 504
";

#[test]
fn a_report_comes_first_in_the_output(rt: HostRuntime) {
    assert_eq!(rt; PLANT.len(), 130);
    let mut want = [7; 200];
    for (place, b) in want.iter_mut().zip(PLANT_REPORT) {
        *place = *b;
    }
    for room in [99, 100, 200] {
        let mut output = [7; 200];
        assert_eq!(rt; analyse(PLANT, &mut output[..room]), Ok(99));
        assert_eq!(rt; output, want);
    }
    // A node that is too long is told before an output that is too short.
    let long = File::new(1, 4, [Parts(2, 33), Pair(0, 1), Needs(1), End]);
    let mut output = [7; 200];
    for room in [0, 98] {
        let short = &mut output[..room];
        assert_eq!(rt; analyse(PLANT, short), Err(Fault::Room));
        assert_eq!(rt; told(analyse(long.written(), short)), Err((2, 2, 12)));
    }
    assert_eq!(rt; output, [7; 200]);
}

#[test]
fn a_fault_tells_three_figures(rt: HostRuntime) {
    for (fault, figures) in [
        (Fault::Model, -130837),
        (Fault::Records, -130838),
        (Fault::LeftOver, -130841),
        (Fault::Letter(3), -66327),
        (Fault::Body(0), -65560),
        (Fault::Value(47), -77594),
        (Fault::Refused(5, Refusal::LongArm), -132363),
        (Fault::Room, -261915),
    ] {
        assert_eq!(rt; fault.packed(), figures);
    }
    let mut output = [0; 99];
    assert_eq!(rt; analyse_for_c(&[9], &mut output), -130837);
    assert_eq!(rt; analyse_for_c(PLANT, &mut output), 99);
    let mut line = Cursor::new([b'.'; 16]);
    assert!(rt; write!(line, "{}", Fault::Model).is_ok());
    assert_eq!(rt; line.into_inner(), *b"fault 1 255 21..");
}

// A part that passes 5, and needs of 3 and of 9: a file of model 1 from its second byte on.
const SMALL: [u8; 37] = [
    2, b'P', 1, 0, 0, 0, 0, 0, 0, 0, 5, 0, 0, 0, 0, 0, 0, 0, 1, b'Q', 2, 0, 0, 0, 0, 0, 0, 0, 3, 0,
    0, 0, 0, 0, 0, 0, 9,
];

fn seven() -> Term<Flow, values::Parts> {
    Term {
        performance: Flow::new(7),
        weight: values::Parts::new(7),
    }
}

#[test]
fn a_model_is_read_into_a_store_of_3200_terms(rt: HostRuntime) {
    let mut room = [seven(); 255];
    let mut store = [seven(); 3200];
    match read(&SMALL, &mut store, &mut room) {
        Ok(model) => {
            assert_eq!(rt; model.nodes, 1);
            for (i, need) in [(0, Some(Flow::new(3))), (1, Some(Flow::new(9))), (2, None)] {
                assert_eq!(rt; model.demand(i), need);
            }
            assert_eq!(rt; model.diagram.size(&store, 0), Ok(1));
        }
        Err(_) => assert!(rt; false, "the file is good"),
    }
    let mut short = [seven(); 3199];
    assert!(rt;
        matches!(
            read(&SMALL, &mut short, &mut room),
            Err(Fault::Refused(255, Refusal::ShortStore))
        )
    );
    let mut output = [b'-'; 70];
    let answer = analyse_as(&SMALL, &mut short, &mut room, &mut output);
    assert_eq!(rt; told(answer), Err((2, 255, 1)));
    assert_eq!(rt; short, [seven(); 3199]);
    assert_eq!(rt; output, [b'-'; 70]);
    let answer = analyse_as(&SMALL, &mut store, &mut room, &mut output);
    assert_eq!(rt; told(answer), Ok(51));
}
