// Room for every capture. Each is a function of its own: proofs take an array by its length, as it is too long to compute with.
// One over a const parameter would be no plainer: each body is one literal, and only the length that its contract names differs.
ghost use Rattle.std.specs.Prelude.{◌≡◌, length, replicate};
ghost use Rattle.storage.specs.Sizes.{z_size, p_size, za_size};
ghost use Rattle.machine.specs.Lists.{most_words};
ghost use Rattle.capture.specs.Outcomes.{longest};

// The bytes of the longest file: as many words as a run takes, and vectors of 256 bytes.
const LONGEST: usize = 336409;

const VECTORS: usize = 8192;

const PREDICATES: usize = 512;

const TILES: usize = 65536;

pub fn words_room() -> [u32; machine::MOST_WORDS]
    ensures answer { result ≡ replicate most_words 0 }
    ensures len { length result ≡ most_words }
{
    [0; machine::MOST_WORDS]
}

pub fn vectors_room() -> [u8; VECTORS]
    ensures answer { result ≡ replicate (z_size 256) 0 }
    ensures len { length result ≡ z_size 256 }
{
    [0; VECTORS]
}

pub fn predicates_room() -> [u8; PREDICATES]
    ensures answer { result ≡ replicate (p_size 256) 0 }
    ensures len { length result ≡ p_size 256 }
{
    [0; PREDICATES]
}

pub fn tiles_room() -> [u8; TILES]
    ensures answer { result ≡ replicate (za_size 256) 0 }
    ensures len { length result ≡ za_size 256 }
{
    [0; TILES]
}

pub fn file_room() -> [u8; LONGEST]
    ensures answer { result ≡ replicate longest 0 }
    ensures len { length result ≡ longest }
{
    [0; LONGEST]
}
