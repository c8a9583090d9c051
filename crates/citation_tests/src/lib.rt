//! Tests of seasons at their limits: inputs that are none, each refusal, compressions without a directory.
//! It uses `trails` and what its register and directories are made of, and is used by nothing.
//! Expected texts are written by hand from the rules in docs/CITATION.md.

#![tactic(auto)]

#[cfg(test)]
mod tests {
    use kinds::DirectSlot;
    use passages::{PointerSlot, Slot, open_directory};
    use std::alloc::{AllocError, Global};
    use std::test::Fail;
    use trails::{COMPRESSIONS, MOST_READ, ROOM, open_directories, open_register, run};

    const NAMES: &[u8] = b"call slot generation value\n";

    // What is written of an input, with so many slots lent for directories and for the joined one.
    fn written(
        heap: Global,
        input: &[u8],
        kept: usize,
        joined: usize,
    ) -> Result<String, AllocError> {
        let mut slots: [Slot; ROOM] = [DirectSlot::Free; ROOM];
        let mut register = open_register(&mut slots);
        let free: PointerSlot = DirectSlot::Free;
        let mut lent = vec![in heap; free; kept]?;
        let mut directories = open_directories(heap, lent.as_mut_slice())?;
        let mut room = vec![in heap; free; joined]?;
        let mut scratch = open_directory(room.as_mut_slice());
        run(heap, &mut register, &mut directories, &mut scratch, input)
    }

    // Whether just this is written of the lines after the names, where there are 64 directories.
    fn gives(heap: Global, lines: &[u8], expected: &[u8]) -> Result<bool, AllocError> {
        let mut input = NAMES.to_vec(heap)?;
        input.extend_from_slice(lines)?;
        let out = written(heap, input.as_slice(), COMPRESSIONS * ROOM, ROOM)?;
        Ok(out.as_bytes() == expected)
    }

    // Lines, and what is written of them.
    type Case = (&'static [u8], &'static [u8]);

    // The place of the first case of which something else is written.
    fn first_wrong(heap: Global, cases: &[Case]) -> Result<Option<usize>, AllocError> {
        for (place, (lines, expected)) in cases.iter().enumerate() {
            if !gives(heap, lines, expected)? {
                return Ok(Some(place));
            }
        }
        Ok(None)
    }

    // The names and then empty lines, so long in all.
    fn padded(heap: Global, long: usize) -> Result<Vec<u8>, AllocError> {
        let mut input = NAMES.to_vec(heap)?;
        for _ in NAMES.len()..long {
            input.push(b'\n')?;
        }
        Ok(input)
    }

    // The names, a record, its citation, and so many compressions.
    fn compressed(heap: Global, times: usize) -> Result<Vec<u8>, AllocError> {
        let mut input = NAMES.to_vec(heap)?;
        input.extend_from_slice(b"insert 2 7 640\ncite 2 7 -\n")?;
        for _ in 0..times {
            input.extend_from_slice(b"compress - - -\n")?;
        }
        Ok(input)
    }

    #[test]
    fn inputs_that_are_no_season(rt: HostRuntime) -> Result<(), Fail> {
        let heap = rt.alloc();
        for input in [b"".as_slice(), b"\n", b"call slot generation value \n"] {
            let out = written(heap, input, ROOM, ROOM)?;
            assert!(rt; out.as_bytes() == b"refused, 11\n".as_slice());
        }
        let out = written(heap, b"call slot generation value", ROOM, ROOM)?;
        assert!(rt; out.as_bytes() == b"compressions 0, records 0\n".as_slice());
        Ok(())
    }

    #[test]
    fn the_longest_input(rt: HostRuntime) -> Result<(), Fail> {
        let heap = rt.alloc();
        let fits = written(heap, padded(heap, 65_536)?.as_slice(), ROOM, ROOM)?;
        let beyond = written(heap, padded(heap, 65_537)?.as_slice(), ROOM, ROOM)?;
        assert!(rt; fits.as_bytes() != b"refused, 11\n".as_slice());
        assert!(rt; beyond.as_bytes() == b"refused, 11\n".as_slice());
        assert!(rt; MOST_READ == 65_537);
        Ok(())
    }

    const BAD_LINES: [Case; 2] = [
        (
            b"get 1 x -\ntrim - - 1\nclear - - -\nrecast - - -\ncite 1 1\n",
            b"line 2: refused, 12\nline 3: refused, 12\nline 4: refused, 12\nline 5: refused, 12\nline 6: refused, 12\ncompressions 0, records 0\n",
        ),
        (
            b"cite 1 1 1\ncite - 1 -\ncite 65536 1 -\ncite 1 01 -\ncompress - - 0\n",
            b"line 2: refused, 13\nline 3: refused, 13\nline 4: refused, 13\nline 5: refused, 13\nline 6: refused, 13\ncompressions 0, records 0\n",
        ),
    ];

    #[test]
    fn bad_lines(rt: HostRuntime) -> Result<(), Fail> {
        assert!(rt; first_wrong(rt.alloc(), &BAD_LINES)?.is_none());
        Ok(())
    }

    const REFUSED_CALLS: [Case; 1] = [(
        b"insert 256 1 7\ninsert 257 1 7\ninsert 0 1 7\ninsert 256 2 7\nremove 256 2 -\nedit 255 1 8\ncite 0 1 -\ncite 256 2 -\n",
        b"line 3: refused, 1\nline 4: refused, 1\nline 5: refused, 2\nline 6: refused, 3\nline 7: refused, 3\nline 8: refused, 3\nline 9: refused, 3\ncompressions 0, records 1\n",
    )];

    #[test]
    fn refused_calls(rt: HostRuntime) -> Result<(), Fail> {
        assert!(rt; first_wrong(rt.alloc(), &REFUSED_CALLS)?.is_none());
        Ok(())
    }

    const NO_COMPRESSION_AFTER_A_CITATION: [Case; 2] = [
        (
            b"insert 9 1 640\ncompress - - -\ncite 1 1 -\nedit 1 1 641\n",
            b"compressions 1, records 1\nline 4 cites 1 1\ntoday: 1 1 value 641\n",
        ),
        (
            b"insert 9 1 640\ncite 9 1 -\nremove 9 1 -\n",
            b"compressions 0, records 0\nline 3 cites 9 1\ntoday: 9 1 is no longer there\n",
        ),
    ];

    #[test]
    fn no_compression_after_a_citation(rt: HostRuntime) -> Result<(), Fail> {
        assert!(rt; first_wrong(rt.alloc(), &NO_COMPRESSION_AFTER_A_CITATION)?.is_none());
        Ok(())
    }

    #[test]
    fn the_last_of_64_directories(rt: HostRuntime) -> Result<(), Fail> {
        let heap = rt.alloc();
        let input = compressed(heap, 65)?;
        let out = written(heap, input.as_slice(), COMPRESSIONS * ROOM, ROOM)?;
        let last = b"compression 64: 1 7 -> 1 7\ntoday: 1 7 value 640\n".as_slice();
        assert!(rt;
            out.as_bytes().starts_with(
                b"line 68: refused, 10\ncompressions 64, records 1\nline 3 cites 2 7\ncompression 1: 2 7 -> 1 7\n",
            )
        );
        assert!(rt; out.as_bytes().ends_with(last));
        Ok(())
    }

    // The record in slot 2 is beyond a directory of one slot, and beyond a joined one of one.
    #[test]
    fn no_room_for_a_report(rt: HostRuntime) -> Result<(), Fail> {
        let heap = rt.alloc();
        let input = compressed(heap, 1)?;
        let kept = written(heap, input.as_slice(), 1, ROOM)?;
        assert!(rt;
            kept.as_bytes()
                == b"line 4: refused, 10\ncompressions 0, records 1\nline 3 cites 2 7\ntoday: 2 7 value 640\n".as_slice()
        );
        let joined = written(heap, input.as_slice(), ROOM, 1)?;
        assert!(rt;
            joined.as_bytes()
                == b"compressions 1, records 1\nline 3 cites 2 7\ncompression 1: 2 7 -> 1 7\ntoday: refused, 10\n".as_slice()
        );
        Ok(())
    }
}
