// The functions that C and Rust programs call, on numbers, as C has them. Each but birdaghol_order_matters answers value * 65536 + missing * 256 + refusal.
#![tactic(auto)]

ghost use Rattle.std.specs.Prelude.{◌≡◌, cond, [], ◌∷◌, ◌++◌, ◌≤◌, ltb, length, drop};
ghost use Rattle.std.proofs.Math.Option.{none, some};
ghost use Rattle.isa.specs.Refusals.{refusal_in};
ghost use Rattle.text.specs.Printing.{room_after};
ghost use Rattle.machine.specs.Machine.{on};
ghost use Rattle.machine.specs.Execution.{after};
ghost use Rattle.machine.specs.Lists.{run_left};
ghost use Rattle.pairs.specs.Order.{order_matters};
ghost use Rattle.capture.specs.Format.{capture_of};
ghost use Rattle.capture.specs.Outcomes.{room_written, buffers};
ghost use Rattle.birdaghol.specs.Calls.{answer, decode_call, print_call, read_call, sized, operation, predicated_call, quarter_call, zero_call, encode_call, bench_of, execute_call, run_call};
ghost use Rattle.birdaghol.specs.Captures.{capture_write_call, contents_number, CaptureReads};
ghost use Rattle.birdaghol.specs.Fields.{operation_numbers, numbers_of, field_count, describe_call, fields_after};

use isa::{
    Instruction, Operation, Predicate, PredicatedProduct, QuarterProduct, Refusal, Tile, Vector,
};
use machine::Bench;

// A refusal takes the lowest byte of an answer, the flags that are missing the next, and the value stands above them.
const AT_MISSING: u64 = 256;

const AT_VALUE: u64 = 65536;

// Of a capture, flags take the lowest four bits of the value, modes the next two, VB the next ten, and the number of words
// stands above them.
const AT_MODES: u64 = 16;

const AT_VB: u64 = 64;

const AT_WORDS: u64 = 65536;

// How many numbers a description is, and the first of them, its kind.
const FIELDS: usize = 11;

const PREDICATED: u32 = 1;

const QUARTER: u32 = 2;

const ZERO: u32 = 3;

// 0 where the word is an instruction with these features, else the refusal.
pub fn birdaghol_decode(flags: u32, word: u32) -> u64
    ensures { result ≡ decode_call flags word }
{
    refusal_of(isa::check(flags, word))
}

// Puts the description of a word at the start of fields: its kind, then the arguments of that kind's encode in their order.
// 0, or the refusal, which leaves fields as they were; 12 where they have fewer places.
pub fn birdaghol_describe(flags: u32, word: u32, fields: &mut [u32]) -> u64
    ensures answer { result ≡ describe_call flags word (length fields.old) }
    ensures fields_after { fields.new ≡ fields_after flags word fields.old }
{
    match isa::decode(flags, word) {
        Ok(i) => hand_out(i, fields),
        Err(r) => refused(r),
    }
}

// Puts the text of a word at the start of room. The value is its length.
pub fn birdaghol_print(flags: u32, word: u32, room: &mut [u8]) -> u64
    ensures answer { result ≡ print_call flags word (length room.old) }
    ensures room_after { room.new ≡ room_after flags word room.old }
{
    match text::print(flags, word, room) {
        Ok(n) => n as u64 * AT_VALUE,
        Err(r) => refused(r),
    }
}

// The word that has this text. The value is the word.
pub fn birdaghol_read(flags: u32, line: &[u8]) -> u64
    ensures { result ≡ read_call flags line.now }
{
    match reader::read(flags, line) {
        Ok(w) => w as u64 * AT_VALUE,
        Err(r) => refused(r),
    }
}

// The word of a predicated outer product. The value is the word.
pub fn birdaghol_encode_predicated(
    element_bytes: u32,
    products: u32,
    first_unsigned: bool,
    second_unsigned: bool,
    subtract: bool,
    tile: u32,
    pn: u32,
    pm: u32,
    zn: u32,
    zm: u32,
) -> u64
    ensures { result ≡ predicated_call element_bytes products first_unsigned second_unsigned subtract tile pn pm zn zm }
{
    let op = operation_of(
        element_bytes,
        products,
        first_unsigned,
        second_unsigned,
        subtract,
    );
    let i = Instruction::Predicated(PredicatedProduct {
        op,
        tile: Tile(tile),
        pn: Predicate(pn),
        pm: Predicate(pm),
        zn: Vector(zn),
        zm: Vector(zm),
    });
    encode_sized(element_bytes, products, i)
}

// The word of a quarter-tile outer product; a pair is given by its first register. The value is the word.
pub fn birdaghol_encode_quarter(
    element_bytes: u32,
    products: u32,
    first_unsigned: bool,
    second_unsigned: bool,
    subtract: bool,
    tile: u32,
    first: u32,
    first_pair: bool,
    second: u32,
    second_pair: bool,
) -> u64
    ensures { result ≡ quarter_call element_bytes products first_unsigned second_unsigned subtract tile first first_pair second second_pair }
{
    let op = operation_of(
        element_bytes,
        products,
        first_unsigned,
        second_unsigned,
        subtract,
    );
    let i = Instruction::Quarter(QuarterProduct {
        op,
        tile: Tile(tile),
        first: isa::source_of(first_pair, first),
        second: isa::source_of(second_pair, second),
    });
    encode_sized(element_bytes, products, i)
}

// The word of a ZERO. The value is the word.
pub fn birdaghol_encode_zero(mask: u8) -> u64
    ensures { result ≡ zero_call mask }
{
    encode(Instruction::Zero(mask))
}

// Executes a word on ZA: 0, or the refusal, which leaves ZA as it was.
pub fn birdaghol_execute(
    flags: u32,
    streaming: bool,
    za_on: bool,
    vb: usize,
    z: &[u8],
    p: &[u8],
    za: &mut [u8],
    word: u32,
) -> u64
    ensures answer { result ≡ execute_call (on (bench_of flags streaming za_on vb) z.now p.now za.old) word }
    ensures za_after { za.new ≡ (after (on (bench_of flags streaming za_on vb) z.now p.now za.old) word).za }
{
    refusal_of(machine::execute(bench_of(flags, streaming, za_on, vb), z, p, za, word))
}

// Executes words in turn, up to the first that is refused. The value is the number of words executed: 65,536 at most, and 0
// for a longer list.
pub fn birdaghol_run(
    flags: u32,
    streaming: bool,
    za_on: bool,
    vb: usize,
    z: &[u8],
    p: &[u8],
    za: &mut [u8],
    words: &[u32],
) -> u64
    ensures answer { result ≡ run_call (on (bench_of flags streaming za_on vb) z.now p.now za.old) words.now }
    ensures za_after { za.new ≡ (run_left (on (bench_of flags streaming za_on vb) z.now p.now za.old) words.now).za }
{
    let ended = machine::run(bench_of(flags, streaming, za_on, vb), z, p, za, words);
    let outcome = ended.outcome;
    ended.count as u64 * AT_VALUE + refusal_of(outcome)
}

// Writes a run as a capture to the start of file. The value is the file's length.
pub fn birdaghol_capture_write(
    flags: u32,
    streaming: bool,
    za_on: bool,
    vb: usize,
    words: &[u32],
    z: &[u8],
    p: &[u8],
    za: &[u8],
    file: &mut [u8],
) -> u64
    ensures answer { result ≡ capture_write_call (capture_of (bench_of flags streaming za_on vb) words.now z.now p.now za.now) (length file.old) }
    ensures file_after { file.new ≡ room_written (capture_of (bench_of flags streaming za_on vb) words.now z.now p.now za.now) file.old }
{
    match capture::write(bench_of(flags, streaming, za_on, vb), words, z, p, za, file) {
        Ok(n) => n as u64 * AT_VALUE,
        Err(r) => refused(r),
    }
}

// Puts the contents of a capture at the starts of words, z, p and za. The value is words * 65536 + vb * 64 + modes * 16 + flags.
pub fn birdaghol_capture_read(
    file: &[u8],
    words: &mut [u32],
    z: &mut [u8],
    p: &mut [u8],
    za: &mut [u8],
) -> u64
    ensures { CaptureReads file.now (buffers words.old z.old p.old za.old) result (buffers words.new z.new p.new za.new) }
{
    match capture::read(file, words, z, p, za) {
        Ok(contents) => contents_number(contents.bench, contents.words) * AT_VALUE,
        Err(r) => refused(r),
    }
}

// Whether the order of two words matters: both are outer products that decode accepts, and their tiles share rows and differ in
// width.
pub fn birdaghol_order_matters(flags: u32, a: u32, b: u32) -> bool
    ensures { result ≡ order_matters flags a b }
{
    pairs::order_matters(flags, a, b)
}

// What the arguments say, as the kinds that they stand for.

fn operation_of(
    element_bytes: u32,
    products: u32,
    first_unsigned: bool,
    second_unsigned: bool,
    subtract: bool,
) -> Operation
    ensures { result ≡ operation element_bytes products first_unsigned second_unsigned subtract }
{
    Operation {
        wide: element_bytes == 8,
        two_way: products == 2,
        u0: first_unsigned,
        u1: second_unsigned,
        subtract,
    }
}

fn bench_of(flags: u32, streaming: bool, za_on: bool, vb: usize) -> Bench
    ensures { result ≡ bench_of flags streaming za_on vb }
{
    Bench {
        flags,
        sm: streaming,
        za: za_on,
        vb,
    }
}

// A bench and a number of words as one number.
fn contents_number(bench: Bench, words: usize) -> u64
    requires { (bench.flags ≤ 15) × (bench.vb ≤ 256) × (words ≤ 65536) }
    ensures { result ≡ contents_number bench words }
{
    let modes = capture::modes_of(bench.sm, bench.za) as u64;
    words as u64 * AT_WORDS + bench.vb as u64 * AT_VB + modes * AT_MODES + bench.flags as u64
}

// A refusal as it stands in an answer: its number, and above it what it hands back. A value is put in its place where it is made:
// values differ in type, and one function for all would be no plainer.
fn refused(r: Refusal) -> u64
    ensures { result ≡ answer 0 (some r) }
{
    isa::missing_in(r) as u64 * AT_MISSING + isa::number(r) as u64
}

// The same of an outcome, 0 for none.
fn refusal_of(o: Result<(), Refusal>) -> u64
    ensures { result ≡ answer 0 (refusal_in o) }
{
    match o {
        Ok(()) => 0,
        Err(r) => refused(r),
    }
}

// The word of a description whose tile has elements of so many bytes, to each of which come so many products; only 4 and 8
// bytes and 2 and 4 products are in range.
fn encode_sized(element_bytes: u32, products: u32, i: Instruction) -> u64
    ensures { result ≡ encode_call (sized element_bytes products i) }
{
    if ((element_bytes == 4) | (element_bytes == 8)) & ((products == 2) | (products == 4)) {
        return encode(i);
    }
    refused(Refusal::OutOfRange)
}

// The word of a description, or the refusal.
fn encode(i: Instruction) -> u64
    ensures { result ≡ encode_call (some i) }
{
    match isa::encode(i) {
        Ok(word) => word as u64 * AT_VALUE,
        Err(r) => refused(r),
    }
}

// The numbers of a description, if there is place for them.
fn hand_out(i: Instruction, fields: &mut [u32]) -> u64
    ensures answer { result ≡ answer 0 (cond (ltb (length fields.old) field_count) (some Refusal.Room) none) }
    ensures fields_after { fields.new ≡ cond (ltb (length fields.old) field_count) fields.old (numbers_of i ++ drop field_count fields.old) }
{
    if fields.len() < FIELDS {
        return refused(Refusal::Room);
    }
    let numbers = numbers_of(i);
    // One by one: as one copy, they would wait to be stored before they are read.
    for (k, field) in fields[..FIELDS].iter_mut().enumerate() {
        *field = numbers[k];
    }
    0
}

fn numbers_of(i: Instruction) -> [u32; FIELDS]
    ensures { result ≡ numbers_of i }
{
    match i {
        Instruction::Predicated(p) => {
            outer_numbers(PREDICATED, p.op, p.tile, p.pn.0, p.pm.0, p.zn.0, p.zm.0)
        }
        Instruction::Quarter(q) => outer_numbers(
            QUARTER,
            q.op,
            q.tile,
            isa::register_of(q.first),
            isa::is_pair(q.first) as u32,
            isa::register_of(q.second),
            isa::is_pair(q.second) as u32,
        ),
        Instruction::Zero(mask) => [ZERO, mask as u32, 0, 0, 0, 0, 0, 0, 0, 0, 0],
    }
}

// Those of an outer product: its kind, its operation, its tile and its sources, one by one as C's arguments are.
fn outer_numbers(
    kind: u32,
    op: Operation,
    tile: Tile,
    a: u32,
    b: u32,
    c: u32,
    d: u32,
) -> [u32; FIELDS]
    ensures { result ≡ kind ∷ (operation_numbers op ++ (tile.0 ∷ a ∷ b ∷ c ∷ d ∷ [])) }
{
    [
        kind,
        isa::element_bytes(op),
        isa::products(op),
        op.u0 as u32,
        op.u1 as u32,
        op.subtract as u32,
        tile.0,
        a,
        b,
        c,
        d,
    ]
}
