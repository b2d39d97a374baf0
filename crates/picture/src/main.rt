// Writes ZA of a capture as a plain PGM image, which any viewer shows: VB by VB grey pixels, 0 black and 255 white, row by row. The
// capture comes on standard input, the image goes to standard output. A file that is refused is told on standard error.
#![tactic(auto)]

ghost use Rattle.std.specs.Prelude.{◌≡◌, ◌++◌, ◌+◌, ◌*◌, ◌≤◌, ◌<◌, length, drop};
ghost use Rattle.std.proofs.lemmas.List.Edits.{sets};
ghost use Rattle.capture.specs.Outcomes.{buffers, Roomy};
ghost use Rattle.picture.specs.Images.{digit, separator, pixel, pixels, header, longest_image, Shows};

use checks::{InputError, STDOUT_FILENO};
use isa::Refusal;

// The bytes of the header, those of a pixel, a number in three places and what stands behind it, and those of the largest image.
const HEADER: usize = 15;

const PIXEL: usize = 4;

const LONGEST: usize = 262159;

// `replay` has one like it: what is done with the file and what is said differ, and one function for both would be no plainer.
fn main(rt: HostRuntime) {
    let mut input = checks::input_room();
    match checks::read_input(&rt, &mut input) {
        Ok(n) => show(checks::first(&input, n)),
        // No capture is as long as the room, and its first byte, which is the version, stands there.
        Err(InputError::TooLong) => show(&input),
        Err(InputError::Unreadable) => {
            checks::eprint(format_args!("the input can't be read to its end, and is not shown\n"));
        }
    }
}

fn show(file: &[u8]) {
    let mut words = capture::words_room();
    let mut z = capture::vectors_room();
    let mut p = capture::predicates_room();
    let mut za = capture::tiles_room();
    let mut room = image_room();
    match show_file(file, &mut words, &mut z, &mut p, &mut za, &mut room) {
        Err(r) => {
            checks::eprint(format_args!("refused {}\n", refusals::Told(r)));
        }
        Ok(length) => {
            if !io::write_all(STDOUT_FILENO, checks::first(&room, length)) {
                checks::eprint(format_args!("standard output did not take the whole image\n"));
            }
        }
    }
}

fn image_room() -> [u8; LONGEST]
    ensures { length result ≡ longest_image }
{
    [0; LONGEST]
}

// Reads a file, puts the image of its ZA at the start of room, and answers how many bytes that has. The buffers come one by one:
// `capture` takes them so, and would have a struct of them taken apart again at once.
fn show_file(
    file: &[u8],
    words: &mut [u32],
    z: &mut [u8],
    p: &mut [u8],
    za: &mut [u8],
    room: &mut [u8],
) -> Result<usize, Refusal>
    requires { Roomy (buffers words.old z.old p.old za.old) × (longest_image ≤ length room.old) }
    ensures { Shows file.now room.old result room.new }
{
    let contents = capture::read(file, words, z, p, za)?;
    let vb = contents.bench.vb;
    Ok(draw(vb, &za[..vb * vb], room))
}

// The header of the image, then its pixels.
fn draw(vb: usize, za: &[u8], room: &mut [u8]) -> usize
    requires { (vb ≤ 256) × (length za.now ≤ 65536) × (longest_image ≤ length room.old) }
    ensures answer { result ≡ 15 + 4 * length za.now }
    ensures room_after { room.new ≡ sets (header vb ++ drop 15 room.old) 15 (pixels 0 za.now) }
{
    put_header(vb, room);
    put_pixels(za, room);
    HEADER + PIXEL * za.len()
}

fn put_header(vb: usize, room: &mut [u8])
    requires { (vb ≤ 256) × (longest_image ≤ length room.old) }
    ensures { room.new ≡ header vb ++ drop 15 room.old }
{
    let hundreds = digit_from(vb, 100);
    let tens = digit_from(vb, 10);
    let units = b'0' + (vb % 10) as u8;
    let text = [
        b'P', b'2', b'\n', hundreds, tens, units, b' ', hundreds, tens, units, b'\n', b'2', b'5',
        b'5', b'\n',
    ];
    room[..HEADER].copy_from_slice(&text);
}

// The pixels of ZA behind the header.
fn put_pixels(za: &[u8], room: &mut [u8])
    requires { (15 + 4 * length za.now ≤ length room.old) × (length za.now ≤ 65536) }
    ensures { room.new ≡ sets room.old 15 (pixels 0 za.now) }
{
    for (i, &v) in za.iter().enumerate() {
        put_pixel(room, i, v);
    }
}

// A pixel in its place.
fn put_pixel(room: &mut [u8], place: usize, v: u8)
    requires { (15 + 4 * place + 4 ≤ length room.old) × (place ≤ 65536) }
    ensures { room.new ≡ sets room.old (15 + 4 * place) (pixel place v) }
{
    let i = HEADER + PIXEL * place;
    let hundreds = digit_from(v as usize, 100);
    let tens = digit_from(v as usize, 10);
    let text = [hundreds, tens, b'0' + v % 10, behind(place)];
    room[i..i + PIXEL].copy_from_slice(&text);
}

// A space, or the end of a line.
fn behind(place: usize) -> u8
    ensures { result ≡ separator place }
{
    if place % 16 == 15 { b'\n' } else { b' ' }
}

// The digit of a unit, 100 or 10, or a space before the number. By hand, as the promise is of each byte of the image.
fn digit_from(v: usize, unit: usize) -> u8
    requires { 0 < unit }
    ensures { result ≡ digit unit v }
{
    if v < unit {
        b' '
    } else {
        b'0' + (v / unit % 10) as u8
    }
}
