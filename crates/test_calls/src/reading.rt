//! What words say: values, counts, names, first contents and accesses.
use scm_cells::{Cells, Initial, Name, Num, Width, read_count, read_initial, read_num, read_value};
use scm_lowering::{lower, read_access};
use scm_sequences::{Op, Refusal};
use std::alloc::Global;
use std::process::Abort;

/// What is read, and what it says: a value in a cell of 32 bits and in one of 64, a count, a name, the first contents of a cell,
/// or an access, where cell 0 is the word x and cell 1 the double word y.
const ROWS: &str = "
    value:0=>0 0
    value:007=>7 7
    value:4294967295=>4294967295 4294967295
    value:4294967296=>- 4294967296
    value:18446744071562067967=>- 18446744071562067967
    value:18446744071562067968=>2147483648 18446744071562067968
    value:18446744073709551615=>4294967295 18446744073709551615
    value:18446744073709551616=>- -
    value:1000000000000000000000000000000000000000=>- -
    value:0x0=>0 0
    value:0xaF09=>44809 44809
    value:0xFFFFffffFFFFffff=>4294967295 18446744073709551615
    value:0x10000000000000000=>- -
    value:-0=>0 0
    value:-1=>4294967295 18446744073709551615
    value:-2147483648=>2147483648 18446744071562067968
    value:-2147483649=>- 18446744071562067967
    value:-9223372036854775808=>- 9223372036854775808
    value:-9223372036854775809=>- -
    value:-18446744073709551616=>- -
    number:=>none
    number:+1=>none
    number:0X1=>none
    number:0x=>none
    number:-0x1=>none
    number:1_000=>none
    number:?=>none
    number:-=>none
    number:12a=>none
    number:0xg=>none
    number: 1=>none
    count:0=>0
    count:0064=>64
    count:18446744073709551615=>18446744073709551615
    count:18446744073709551616=>18446744073709551615
    count:1000000000000000000000000000000000000000=>18446744073709551615
    count:=>none
    count:-1=>none
    count:0x1=>none
    count:1 =>none
    name:x=>x
    name:a-z_09=>a-z_09
    name:abcdefghijklmnopqrstuvwxyz012345=>abcdefghijklmnopqrstuvwxyz012345
    name:=>none
    name:X=>none
    name:x y=>none
    name:x:w=>none
    name:`=>none
    name:{=>none
    name:/=>none
    name:abcdefghijklmnopqrstuvwxyz0123456=>none
    initial:?=>open
    initial:0=>0
    initial:-1=>-1
    initial:=>none
    initial:??=>none
    initial:?0=>none
    initial:-?=>none
    initial:x=>none
    access:lw x -1=>R 0 4294967295
    access:ld y 0x8000000000000000=>R 1 9223372036854775808
    access:sw x 7=>W 0 7
    access:sd y -1=>W 1 18446744073709551615
    access:rw x 0 5=>RW 0 0 5
    access:amoadd.w x -1 1=>RW 0 1 0
    access:amomin.w.aqrl x 0x80000000 1=>RW 0 1 2147483648
    access:amominu.w x 0x80000000 1=>RW 0 1 1
    access:amomin.w x 1 0x80000000=>RW 0 2147483648 2147483648
    access:amominu.w x 1 0x80000000=>RW 0 2147483648 1
    access:sw q 4294967296=>no-such-cell
    access:amoadd.d q 1 0=>no-such-cell
    access:rw q 0 1=>no-such-cell
    access:lw y 0=>width-mismatch
    access:sd x 0=>width-mismatch
    access:amoadd.d x 4294967296 0=>width-mismatch
    access:sw x 4294967296=>value-out-of-range
    access:amoadd.w x 0 4294967296=>value-out-of-range
    access:rw x 0 4294967296=>value-out-of-range
    access:lw.aq x 1=>bad-line
    access:LW x 1=>bad-line
    access:sw x ?=>bad-line
    access:sw X 1=>bad-line
    access:lw x=>bad-line
    access:lw x 1 2=>bad-line
    access:rw x 1=>bad-line
    access:rw x 1 2 3=>bad-line
    access:amoswap.w x 1=>bad-line
    access:amoswap.w.aq.rl x 1 0=>bad-line
";

fn plain(text: &str) -> Option<u64> {
    text.parse::<u64>().ok()
}

/// The value of a word in a cell is this one, `-` where it is out of range.
fn has_value(width: Width, word: &str, wanted: &str) -> bool {
    read_value(width, word.as_bytes()) == plain(wanted).ok_or(Refusal::ValueOutOfRange)
}

fn is_value(rt: &impl Abort, word: &str, wanted: &str) -> bool {
    let (in_word, in_double) = wanted.split_once(' ').expect(rt, "two values");
    has_value(Width::W, word, in_word) && has_value(Width::D, word, in_double)
}

/// The word is neither a number nor a value.
fn is_no_number(word: &str) -> bool {
    read_num(word.as_bytes()) == None
        && read_value(Width::D, word.as_bytes()) == Err(Refusal::BadLine)
}

fn is_name(word: &str, wanted: &str) -> bool {
    match Name::read(word.as_bytes()) {
        Some(name) => name.bytes() == wanted.as_bytes() && wanted != "none",
        None => wanted == "none",
    }
}

fn is_initial(word: &str, wanted: &str) -> bool {
    match read_initial(word.as_bytes()) {
        Some(Initial::Unset) => wanted == "open",
        Some(Initial::Given(Num::Plain(number))) => plain(wanted) == Some(number),
        Some(Initial::Given(Num::Negative(number))) => {
            wanted.strip_prefix("-").and_then(plain) == Some(number)
        }
        Some(Initial::Given(Num::Beyond)) => false,
        None => wanted == "none",
    }
}

/// Cell 0 is the word x, cell 1 the double word y.
fn two_cells(rt: &impl Abort, alloc: Global) -> Cells {
    let mut cells = Cells::new(alloc);
    for (word, width) in [(b"x", Width::W), (b"y", Width::D)] {
        let name = Name::read(word).expect(rt, "a name");
        let added = cells.add(name, width, Initial::Given(Num::Plain(0)));
        assert!(rt; added.is_ok());
    }
    cells
}

fn lowered(rt: &impl Abort, alloc: Global, line: &str) -> Result<Op, Refusal> {
    let mut words = Vec::new(alloc);
    for word in line.split(' ') {
        words.push(word.as_bytes()).expect(rt, "memory");
    }
    lower(&two_cells(rt, alloc), &read_access(&words)?)
}

/// Whether the operation is what a text says, as `RW 0 1 2`.
fn is_operation(op: Op, wanted: &str) -> bool {
    let mut words = wanted.split(' ');
    let kind = words.next();
    let mut number = || words.next().and_then(plain);
    let is_cell = number() == Some(op.cell() as u64);
    let (first, second) = (number(), number());
    is_cell
        && match op {
            Op::R { value, .. } => (kind, first, second) == (Some("R"), Some(value), None),
            Op::W { value, .. } => (kind, first, second) == (Some("W"), Some(value), None),
            Op::Rw { old, new, .. } => (kind, first, second) == (Some("RW"), Some(old), Some(new)),
        }
}

fn is_access(rt: &impl Abort, alloc: Global, line: &str, wanted: &str) -> bool {
    match lowered(rt, alloc, line) {
        Ok(op) => is_operation(op, wanted),
        Err(refusal) => refusal.text() == wanted,
    }
}

fn check(rt: &impl Abort, alloc: Global, row: &str) {
    let (kind, rest) = row.split_once(':').expect(rt, "a kind");
    let (word, wanted) = rest.split_once("=>").expect(rt, "an arrow");
    let is_right = match kind {
        "value" => is_value(rt, word, wanted),
        "number" => is_no_number(word),
        "count" => read_count(word.as_bytes()) == plain(wanted),
        "name" => is_name(word, wanted),
        "initial" => is_initial(word, wanted),
        _ => is_access(rt, alloc, word, wanted),
    };
    assert!(rt; is_right, "{row}");
}

#[test]
fn words_say_what_they_say(rt: HostRuntime) {
    for row in ROWS.trim().lines() {
        check(&rt, rt.alloc(), row.trim_start());
    }
}

/// So many digits, all of which are this one.
fn digits(rt: &impl Abort, alloc: Global, digit: u8) -> Vec<u8> {
    vec![in alloc; digit; 5000].expect(rt, "memory")
}

fn assert_long(rt: &impl Abort, digits: &[u8], number: Num, count: u64) {
    assert!(rt; read_num(digits) == Some(number) && read_count(digits) == Some(count));
}

#[test]
fn words_of_thousands_of_digits(rt: HostRuntime) {
    assert_long(&rt, &digits(&rt, rt.alloc(), b'9'), Num::Beyond, u64::MAX);
    let mut zeros = digits(&rt, rt.alloc(), b'0');
    zeros.push(b'7').expect(&rt, "memory");
    assert_long(&rt, &zeros, Num::Plain(7), 7);
}
