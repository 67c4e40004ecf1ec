//! The size of MPI_COMM_WORLD, beside the number of texts.

ghost use Rattle.std.specs.Prelude.{◌≡◌, ◌<◌, ◌^◌, length};
ghost use Rattle.text_layouts.specs.Sizes.{other_size};

use comm_makings::RankCalls;

/// The first rank that says another size than this one, and the size that it says.
pub(crate) fn other_size(ranks: &[RankCalls], count: u32) -> Option<(u32, u32)>
    requires { length ranks.now < 2 ^ 32 }
    ensures { result ≡ other_size count 0 ranks.now }
{
    let mut rank = 0u32;
    for calls in ranks {
        if let Some(size) = calls.size {
            if size != count {
                return Some((rank, size));
            }
        }
        rank += 1;
    }
    None
}
