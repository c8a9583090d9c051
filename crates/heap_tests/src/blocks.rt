// A block alone: it holds what was written last, and its owner must give it back, once.
ghost use Rattle.std.specs.Prelude.{◌≡◌, IfSome};

use heap_block::{Block, is_small};
use std::alloc::Allocator;

/// Two slots of a block, of which one was written twice; none where there is no memory.
pub fn written_and_read<A: Allocator>(heap: &A) -> Option<(u64, u64)>
    ensures { IfSome result (λ r. r ≡ (7, 6)) }
{
    if !is_small::<u64>() {
        return None;
    }
    let Ok(mut block) = Block::obtain(heap, 3) else {
        return None;
    };
    block.write(0, 5);
    block.write(1, 6);
    block.write(0, 7);
    let read = (*block.slot(0), *block.slot(1));
    block.release(heap, 3);
    Some(read)
}

#[cfg(test)]
mod tests {
    use super::written_and_read;
    use heap_block::Block;
    use std::alloc::Global;

    #[test]
    fn a_block_is_written_read_and_given_back(rt: HostRuntime) {
        assert!(rt; written_and_read(&rt.alloc()) == Some((7, 6)));
    }

    // Whether a block of 256 MiB is had so many times, each given back before the next.
    fn obtained_and_released(heap: &Global, times: u32) -> bool {
        for _ in 0..times {
            let Ok(block) = Block::<u64, Global>::obtain(heap, 33_554_432) else {
                return false;
            };
            block.release(heap, 33_554_432);
        }
        true
    }

    // What did not go back would fill the 2^47 bytes that a process may address.
    #[test]
    fn memory_goes_back(rt: HostRuntime) {
        assert!(rt; obtained_and_released(&rt.alloc(), 600_000));
    }
}
