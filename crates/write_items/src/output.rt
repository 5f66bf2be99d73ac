// The lent output: cleared, then what stands before the body, then ends and items. What it has no room for is left out, and found out by the place behind it.
ghost use Rattle.std.specs.Prelude.{◌≡◌, ◌/◌, length, replicate, set};
ghost use Rattle.write_items.specs.OutputContracts.{end_octet};

use fields::put::put;

// Every octet is 0.
pub fn clear(out: &mut [u8])
    ensures { out.new ≡ replicate (length out.old) 0 }
{
    out.fill(0);
}

// An end at the half `at`. In the first half of an octet it leaves the second 0; before the second stands another end.
pub fn put_end(out: &mut [u8], at: usize)
    ensures { out.new ≡ set out.old (at / 2) (end_octet at) }
{
    put(out, at / 2, if at % 2 == 0 { 0xF0 } else { 0xFF });
}
