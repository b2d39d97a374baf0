// Clearing the rows of 64-bit tiles.
ghost use Rattle.std.specs.Prelude.{◌≡◌, ◌<◌, true, ◌&&◌, length, ◌==◌};
ghost use Rattle.storage.specs.Sizes.{legal, za_size};
ghost use Rattle.storage.specs.Tile.{clear, masked};
ghost use Rattle.outer.specs.Rows.{Cleared};

// Clears every row of ZA that is a row of a 64-bit tile of the mask.
pub fn clear_tiles(vb: usize, mask: u8, za: &mut [u8])
    requires { (legal vb ≡ true) × (length za.old ≡ za_size vb) }
    ensures { za.new ≡ clear vb mask za.old }
{
    for row in 0..vb {
        clear_row(vb, mask, row, za);
    }
}

// Clears a row, if it is one of the mask's.
fn clear_row(vb: usize, mask: u8, row: usize, za: &mut [u8])
    requires { (legal vb ≡ true) × (length za.old ≡ za_size vb) × (row < vb) }
    ensures { Cleared vb (λ r. (r == row) && masked mask r) za.old za.new }
{
    let tile = row % 8;
    if (mask >> tile) % 2 == 0 {
        return;
    }
    let start = row * vb;
    za[start..start + vb].fill(0);
}
