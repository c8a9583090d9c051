//! Tests of the runner on scripts at its limits: lengths of lines and inputs, bytes of every sort, each refusal.
//! It uses `runner` and what that stands on, and is used by nothing.
//! Expected reports are written by hand from the rules in docs/REGISTER.md.

#![tactic(auto)]

#[cfg(test)]
mod tests {
    use kinds::DirectSlot;
    use passages::{PointerSlot, Slot, open, open_directory};
    use runner::{MOST_READ, run};
    use std::alloc::{AllocError, Global};
    use std::test::Fail;

    const NAMES: &[u8] = b"call slot generation value\n";

    // The report on an input, by a new register and a new directory of 256 slots each.
    fn report(heap: Global, input: &[u8]) -> Result<String, AllocError> {
        let mut slots: [Slot; 256] = [DirectSlot::Free; 256];
        let mut register = open(&mut slots);
        let mut pointers: [PointerSlot; 256] = [DirectSlot::Free; 256];
        let mut latest = open_directory(&mut pointers);
        run(heap, &mut register, &mut latest, input)
    }

    // Whether the lines after the names get just these answers after the names.
    fn answers(heap: Global, lines: &[u8], expected: &[u8]) -> Result<bool, AllocError> {
        let mut input = NAMES.to_vec(heap)?;
        input.extend_from_slice(lines)?;
        let mut whole = b"answer slot generation value count slots capacity\n".to_vec(heap)?;
        whole.extend_from_slice(expected)?;
        let out = report(heap, input.as_slice())?;
        Ok(out.as_bytes() == whole.as_slice())
    }

    // Lines, and their answers.
    type Case = (&'static [u8], &'static [u8]);

    // The place of the first case that is answered otherwise, each by a new register.
    fn first_wrong(heap: Global, cases: &[Case]) -> Result<Option<usize>, AllocError> {
        for (place, (lines, expected)) in cases.iter().enumerate() {
            if !answers(heap, lines, expected)? {
                return Ok(Some(place));
            }
        }
        Ok(None)
    }

    // Whether an input is refused whole.
    fn refused(heap: Global, input: &[u8]) -> Result<bool, AllocError> {
        let out = report(heap, input)?;
        Ok(
            out.as_bytes()
                == b"answer slot generation value count slots capacity\n11 - - - 0 0 16\n".as_slice(),
        )
    }

    // The names and then empty lines, so long in all.
    fn padded(heap: Global, long: usize) -> Result<Vec<u8>, AllocError> {
        let mut input = NAMES.to_vec(heap)?;
        for _ in NAMES.len()..long {
            input.push(b'\n')?;
        }
        Ok(input)
    }

    #[test]
    fn first_lines(rt: HostRuntime) -> Result<(), Fail> {
        let heap = rt.alloc();
        assert!(rt; refused(heap, b"")?);
        assert!(rt; refused(heap, b"\n")?);
        assert!(rt; refused(heap, b"call slot generation")?);
        assert!(rt; refused(heap, b"call slot generation value \n")?);
        assert!(rt; refused(heap, b"call slot generation value\r\n")?);
        assert!(rt; refused(heap, b"Call slot generation value\n")?);
        assert!(rt; answers(heap, b"", b"")?);
        Ok(())
    }

    #[test]
    fn names_alone_may_lack_their_end(rt: HostRuntime) -> Result<(), Fail> {
        let out = report(rt.alloc(), b"call slot generation value")?;
        assert!(rt;
            out.as_bytes() == b"answer slot generation value count slots capacity\n".as_slice()
        );
        Ok(())
    }

    #[test]
    fn the_longest_input(rt: HostRuntime) -> Result<(), Fail> {
        let heap = rt.alloc();
        let fits = padded(heap, 65_536)?;
        let beyond = padded(heap, 65_537)?;
        assert!(rt; fits.len() == 65_536);
        assert!(rt; MOST_READ == 65_537);
        assert!(rt; !refused(heap, fits.as_slice())?);
        assert!(rt; refused(heap, beyond.as_slice())?);
        Ok(())
    }

    // 80 bytes are a line of too many fields or of a wrong one; 81 are 12 whatever they hold.
    #[test]
    fn the_longest_line(rt: HostRuntime) -> Result<(), Fail> {
        let heap = rt.alloc();
        let mut line = b"get 1 1 ".to_vec(heap)?;
        for _ in 8..80 {
            line.push(b'0')?;
        }
        assert!(rt; answers(heap, line.as_slice(), b"13 - - - 0 0 16\n")?);
        line.push(b'0')?;
        assert!(rt; answers(heap, line.as_slice(), b"12 - - - 0 0 16\n")?);
        Ok(())
    }

    const BYTES_OF_EVERY_SORT: [Case; 5] = [
        (b"get 1 1 -\r\n", b"13 - - - 0 0 16\n"),
        (b"get\x00 1 1 -\n", b"12 - - - 0 0 16\n"),
        (b"get 1 \xff -\n", b"13 - - - 0 0 16\n"),
        (b"\xc3\xa9 1 1 -\n", b"12 - - - 0 0 16\n"),
        (b"get\t1 1 - -\n", b"12 - - - 0 0 16\n"),
    ];

    #[test]
    fn bytes_of_every_sort(rt: HostRuntime) -> Result<(), Fail> {
        assert!(rt; first_wrong(rt.alloc(), &BYTES_OF_EVERY_SORT)?.is_none());
        Ok(())
    }

    const SPACES_PART_FIELDS: [Case; 6] = [
        (b"get  1 -\n", b"13 - - - 0 0 16\n"),
        (b"get 1  1 -\n", b"12 - - - 0 0 16\n"),
        (b" 1 1 -\n", b"12 - - - 0 0 16\n"),
        (b"get 1 1 \n", b"13 - - - 0 0 16\n"),
        (b"get 1 1\n", b"12 - - - 0 0 16\n"),
        (b"\n\n", b"12 - - - 0 0 16\n12 - - - 0 0 16\n"),
    ];

    #[test]
    fn spaces_part_fields(rt: HostRuntime) -> Result<(), Fail> {
        assert!(rt; first_wrong(rt.alloc(), &SPACES_PART_FIELDS)?.is_none());
        Ok(())
    }

    const NUMBERS_IN_RANGE: [Case; 8] = [
        (b"insert 65535 0 0\n", b"1 - - - 0 0 16\n"),
        (b"insert 65536 0 0\n", b"13 - - - 0 0 16\n"),
        (
            b"insert 1 4294967295 4294967295\n",
            b"ok 1 4294967295 4294967295 1 1 16\n",
        ),
        (b"insert 1 4294967296 0\n", b"13 - - - 0 0 16\n"),
        (b"trim - - 4294967296\n", b"13 - - - 0 0 16\n"),
        (b"trim - - 00\n", b"13 - - - 0 0 16\n"),
        (b"trim - - +1\n", b"13 - - - 0 0 16\n"),
        (b"clear - - 0\n", b"13 - - - 0 0 16\n"),
    ];

    #[test]
    fn numbers_in_range(rt: HostRuntime) -> Result<(), Fail> {
        assert!(rt; first_wrong(rt.alloc(), &NUMBERS_IN_RANGE)?.is_none());
        Ok(())
    }

    const LIMITS_AT_THE_EDGE: [Case; 4] = [
        (
            b"insert 16 1 7\ninsert 17 1 7\n",
            b"ok 16 1 7 1 16 16\n1 - - - 1 16 16\n",
        ),
        (
            b"reserve - - 16\nreserve - - 17\n",
            b"ok - - 16 0 0 16\n6 - - - 0 0 16\n",
        ),
        (
            b"limit - - 0\ninsert 1 1 1\n",
            b"ok - - 0 0 0 0\n1 - - - 0 0 0\n",
        ),
        (
            b"limit - - 4294967295\nreserve - - 256\nreserve - - 257\n",
            b"ok - - 4294967295 0 0 16\nok - - 256 0 0 256\n7 - - - 0 0 256\n",
        ),
    ];

    #[test]
    fn limits_at_the_edge(rt: HostRuntime) -> Result<(), Fail> {
        assert!(rt; first_wrong(rt.alloc(), &LIMITS_AT_THE_EDGE)?.is_none());
        Ok(())
    }

    const CAPACITY_AT_THE_EDGE: [Case; 1] = [(
        b"insert 16 1 7\ninsert 17 1 7\nreserve - - 16\nreserve - - 17\n",
        b"ok 16 1 7 1 16 16\n1 - - - 1 16 16\nok - - 16 1 16 16\n6 - - - 1 16 16\n",
    )];

    #[test]
    fn capacity_at_the_edge(rt: HostRuntime) -> Result<(), Fail> {
        assert!(rt; first_wrong(rt.alloc(), &CAPACITY_AT_THE_EDGE)?.is_none());
        Ok(())
    }

    // Slots 0, 1, the last and one beyond; a slot that is taken; a removal leaves the slots; a list of slots quite full.
    const SLOTS_AT_THE_EDGE: [Case; 1] = [(
        b"limit - - 2\ninsert 0 1 10\ninsert 3 1 10\ninsert 2 1 20\ninsert 2 2 21\nremove 2 1 -\ninsert 1 1 10\ninsert 2 3 22\ninsert 3 1 10\nget 2 1 -\n",
        b"ok - - 2 0 0 2\n1 - - - 0 0 2\n1 - - - 0 0 2\nok 2 1 20 1 2 2\n2 - - - 1 2 2\nok 2 1 20 0 2 2\nok 1 1 10 1 2 2\nok 2 3 22 2 2 2\n1 - - - 2 2 2\n3 - - - 2 2 2\n",
    )];

    #[test]
    fn slots_at_the_edge(rt: HostRuntime) -> Result<(), Fail> {
        assert!(rt; first_wrong(rt.alloc(), &SLOTS_AT_THE_EDGE)?.is_none());
        Ok(())
    }

    const COMPRESSIONS: [Case; 3] = [
        (
            b"compress - - -\ninsert 16 1 9\ncompress - - -\ncompress - - -\nget 1 1 -\nget 16 1 -\n",
            b"ok - - 0 0 0 16\nok 16 1 9 1 16 16\nok - - 1 1 1 16\nok - - 1 1 1 16\nok 1 1 9 1 1 16\n3 - - - 1 1 16\n",
        ),
        (
            b"limit - - 256\nreserve - - 256\ninsert 256 1 9\ninsert 255 2 8\nremove 256 1 -\ncompress - - -\n",
            b"ok - - 256 0 0 16\nok - - 256 0 0 256\nok 256 1 9 1 256 256\nok 255 2 8 2 256 256\nok 256 1 9 1 256 256\nok - - 1 1 1 256\n",
        ),
        (
            b"compress 1 - -\ncompress - - 0\n",
            b"13 - - - 0 0 16\n13 - - - 0 0 16\n",
        ),
    ];

    #[test]
    fn compressions(rt: HostRuntime) -> Result<(), Fail> {
        assert!(rt; first_wrong(rt.alloc(), &COMPRESSIONS)?.is_none());
        Ok(())
    }

    // Before any compression nothing is held; then what stood at the latest one, under the pointer of then.
    const RECASTS: [Case; 2] = [
        (
            b"insert 2 5 40\ninsert 5 5 70\ninsert 5 6 71\nremove 2 5 -\nrecast 5 5 -\ncompress - - -\nrecast 5 5 -\nrecast 2 5 -\nrecast 5 6 -\nrecast 1 5 -\nrecast 0 5 -\n",
            b"ok 2 5 40 1 2 16\nok 5 5 70 2 5 16\n2 - - - 2 5 16\nok 2 5 40 1 5 16\n9 - - - 1 5 16\nok - - 1 1 1 16\nok 1 5 - 1 1 16\n9 - - - 1 1 16\n9 - - - 1 1 16\n9 - - - 1 1 16\n9 - - - 1 1 16\n",
        ),
        (
            b"recast 1 1 1\nrecast 1 - -\nrecast - - -\nrecast 65536 1 -\n",
            b"13 - - - 0 0 16\n13 - - - 0 0 16\n13 - - - 0 0 16\n13 - - - 0 0 16\n",
        ),
    ];

    #[test]
    fn recasts(rt: HostRuntime) -> Result<(), Fail> {
        assert!(rt; first_wrong(rt.alloc(), &RECASTS)?.is_none());
        Ok(())
    }

    // The second compression's directory takes the first one's place; clearing the register leaves it.
    const ONLY_THE_LATEST_DIRECTORY: [Case; 2] = [
        (
            b"insert 3 1 10\ninsert 4 2 20\ncompress - - -\nrecast 4 2 -\nremove 1 1 -\ncompress - - -\nrecast 4 2 -\nrecast 1 1 -\nrecast 2 2 -\nclear - - -\nrecast 2 2 -\ncompress - - -\nrecast 2 2 -\n",
            b"ok 3 1 10 1 3 16\nok 4 2 20 2 4 16\nok - - 2 2 2 16\nok 2 2 - 2 2 16\nok 1 1 10 1 2 16\nok - - 1 1 1 16\n9 - - - 1 1 16\n9 - - - 1 1 16\nok 1 2 - 1 1 16\nok - - - 0 0 16\nok 1 2 - 0 0 16\nok - - 0 0 0 16\n9 - - - 0 0 16\n",
        ),
        (
            b"limit - - 256\nreserve - - 256\ninsert 256 4294967295 9\ncompress - - -\nrecast 256 4294967295 -\n",
            b"ok - - 256 0 0 16\nok - - 256 0 0 256\nok 256 4294967295 9 1 256 256\nok - - 1 1 1 256\nok 1 4294967295 - 1 1 256\n",
        ),
    ];

    #[test]
    fn only_the_latest_directory(rt: HostRuntime) -> Result<(), Fail> {
        assert!(rt; first_wrong(rt.alloc(), &ONLY_THE_LATEST_DIRECTORY)?.is_none());
        Ok(())
    }
}
