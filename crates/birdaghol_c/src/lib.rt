// The functions of the library `birdaghol`, as C calls them: only a crate that is a static library exports.
#![tactic(auto)]

ghost use Rattle.std.specs.Prelude.{◌≡◌, length};
ghost use Rattle.text.specs.Printing.{room_after};
ghost use Rattle.machine.specs.Machine.{on};
ghost use Rattle.machine.specs.Execution.{after};
ghost use Rattle.machine.specs.Lists.{run_left};
ghost use Rattle.pairs.specs.Order.{order_matters};
ghost use Rattle.capture.specs.Format.{capture_of};
ghost use Rattle.capture.specs.Outcomes.{room_written, buffers};
ghost use Rattle.birdaghol.specs.Calls.{decode_call, print_call, read_call, predicated_call, quarter_call, zero_call, bench_of, execute_call, run_call};
ghost use Rattle.birdaghol.specs.Captures.{capture_write_call, CaptureReads};
ghost use Rattle.birdaghol.specs.Fields.{describe_call, fields_after};

// 0 where the word is an instruction with these features, else the refusal.
#[unsafe(no_mangle)]
pub extern "C" fn birdaghol_decode(flags: u32, word: u32) -> u64
    ensures { result ≡ decode_call flags word }
{
    birdaghol::birdaghol_decode(flags, word)
}

// Puts the description of a word at the start of fields: its kind, then the arguments of that kind's encode in their order.
// 0, or the refusal, which leaves fields as they were; 12 where they have fewer places.
#[unsafe(no_mangle)]
pub extern "C" fn birdaghol_describe(flags: u32, word: u32, fields: &mut [u32]) -> u64
    ensures answer { result ≡ describe_call flags word (length fields.old) }
    ensures fields_after { fields.new ≡ fields_after flags word fields.old }
{
    birdaghol::birdaghol_describe(flags, word, fields)
}

// Puts the text of a word at the start of room. The value is its length.
#[unsafe(no_mangle)]
pub extern "C" fn birdaghol_print(flags: u32, word: u32, room: &mut [u8]) -> u64
    ensures answer { result ≡ print_call flags word (length room.old) }
    ensures room_after { room.new ≡ room_after flags word room.old }
{
    birdaghol::birdaghol_print(flags, word, room)
}

// The word that has this text. The value is the word.
#[unsafe(no_mangle)]
pub extern "C" fn birdaghol_read(flags: u32, line: &[u8]) -> u64
    ensures { result ≡ read_call flags line.now }
{
    birdaghol::birdaghol_read(flags, line)
}

// The word of a predicated outer product. The value is the word.
#[unsafe(no_mangle)]
pub extern "C" fn birdaghol_encode_predicated(
    element_bytes: u32,
    products: u32,
    first_unsigned: bool,
    second_unsigned: bool,
    subtract: bool,
    tile: u32,
    pn: u32,
    pm: u32,
    zn: u32,
    zm: u32,
) -> u64
    ensures { result ≡ predicated_call element_bytes products first_unsigned second_unsigned subtract tile pn pm zn zm }
{
    birdaghol::birdaghol_encode_predicated(
        element_bytes,
        products,
        first_unsigned,
        second_unsigned,
        subtract,
        tile,
        pn,
        pm,
        zn,
        zm,
    )
}

// The word of a quarter-tile outer product; a pair is given by its first register. The value is the word.
#[unsafe(no_mangle)]
pub extern "C" fn birdaghol_encode_quarter(
    element_bytes: u32,
    products: u32,
    first_unsigned: bool,
    second_unsigned: bool,
    subtract: bool,
    tile: u32,
    first: u32,
    first_pair: bool,
    second: u32,
    second_pair: bool,
) -> u64
    ensures { result ≡ quarter_call element_bytes products first_unsigned second_unsigned subtract tile first first_pair second second_pair }
{
    birdaghol::birdaghol_encode_quarter(
        element_bytes,
        products,
        first_unsigned,
        second_unsigned,
        subtract,
        tile,
        first,
        first_pair,
        second,
        second_pair,
    )
}

// The word of a ZERO. The value is the word.
#[unsafe(no_mangle)]
pub extern "C" fn birdaghol_encode_zero(mask: u8) -> u64
    ensures { result ≡ zero_call mask }
{
    birdaghol::birdaghol_encode_zero(mask)
}

// Executes a word on ZA: 0, or the refusal, which leaves ZA as it was.
#[unsafe(no_mangle)]
pub extern "C" fn birdaghol_execute(
    flags: u32,
    streaming: bool,
    za_on: bool,
    vb: usize,
    z: &[u8],
    p: &[u8],
    za: &mut [u8],
    word: u32,
) -> u64
    ensures answer { result ≡ execute_call (on (bench_of flags streaming za_on vb) z.now p.now za.old) word }
    ensures za_after { za.new ≡ (after (on (bench_of flags streaming za_on vb) z.now p.now za.old) word).za }
{
    birdaghol::birdaghol_execute(flags, streaming, za_on, vb, z, p, za, word)
}

// Executes words in turn, up to the first that is refused. The value is the number of words executed: 65,536 at most, and 0
// for a longer list.
#[unsafe(no_mangle)]
pub extern "C" fn birdaghol_run(
    flags: u32,
    streaming: bool,
    za_on: bool,
    vb: usize,
    z: &[u8],
    p: &[u8],
    za: &mut [u8],
    words: &[u32],
) -> u64
    ensures answer { result ≡ run_call (on (bench_of flags streaming za_on vb) z.now p.now za.old) words.now }
    ensures za_after { za.new ≡ (run_left (on (bench_of flags streaming za_on vb) z.now p.now za.old) words.now).za }
{
    birdaghol::birdaghol_run(flags, streaming, za_on, vb, z, p, za, words)
}

// Writes a run as a capture to the start of file. The value is the file's length.
#[unsafe(no_mangle)]
pub extern "C" fn birdaghol_capture_write(
    flags: u32,
    streaming: bool,
    za_on: bool,
    vb: usize,
    words: &[u32],
    z: &[u8],
    p: &[u8],
    za: &[u8],
    file: &mut [u8],
) -> u64
    ensures answer { result ≡ capture_write_call (capture_of (bench_of flags streaming za_on vb) words.now z.now p.now za.now) (length file.old) }
    ensures file_after { file.new ≡ room_written (capture_of (bench_of flags streaming za_on vb) words.now z.now p.now za.now) file.old }
{
    birdaghol::birdaghol_capture_write(flags, streaming, za_on, vb, words, z, p, za, file)
}

// Puts the contents of a capture at the starts of words, z, p and za. The value is words * 65536 + vb * 64 + modes * 16 + flags.
#[unsafe(no_mangle)]
pub extern "C" fn birdaghol_capture_read(
    file: &[u8],
    words: &mut [u32],
    z: &mut [u8],
    p: &mut [u8],
    za: &mut [u8],
) -> u64
    ensures { CaptureReads file.now (buffers words.old z.old p.old za.old) result (buffers words.new z.new p.new za.new) }
{
    birdaghol::birdaghol_capture_read(file, words, z, p, za)
}

// Whether the order of two words matters: both are outer products that decode accepts, and their tiles share rows and differ in
// width.
#[unsafe(no_mangle)]
pub extern "C" fn birdaghol_order_matters(flags: u32, a: u32, b: u32) -> bool
    ensures { result ≡ order_matters flags a b }
{
    birdaghol::birdaghol_order_matters(flags, a, b)
}
