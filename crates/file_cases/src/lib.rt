// Files of every fault. The tests try what no contract says: that the definitions of the formats say what people meant.
#![tactic(auto)]

#[cfg(test)]
mod tests {
    use fields::fault::{Fault, File, Told};
    use fields::field::{Field, Part};
    use machines::depth::Depth;
    use machines::names::Names;
    use name_list::list::NameList;
    use nested::machine::Machine;
    use nested::refusal::Refusal;
    use nested::row::mark_row;
    use nested::standing::{Standing, Stop};
    use records::check::{Unchecked, check_record};
    use records::read::read_record;
    use records::write::write_record;
    use std::alloc::{AllocError, Global};
    use std::process::Abort;
    use std::test::Fail;

    // The list that a file of names loads to. Memory is handed on beside the handle that asserts, which has none to give.
    fn list_of(bytes: &[u8], heap: Global) -> Result<NameList, Fault> {
        let mut list = NameList::new(heap);
        list.load(bytes, heap)?;
        Ok(list)
    }

    // Name lists with a fault, alone or behind a name list, and the fault's number and place.
    const BAD_LISTS: [(&[u8], u8, u8); 33] = [
        (b"\x10", 10, 0),
        (b"\x10\x00", 10, 0),
        (b"\x10\x00\x01", 10, 0),
        (b"\x10\x00\x03ab", 10, 0),
        (b"\x10\x01\x00a", 10, 0),
        (b"\x10\x00\x02ab\x10\x00\x02a", 10, 5),
        (b"\x01", 10, 0),
        (b"\x01\x00\x02a", 10, 0),
        (b"\x10\x00\x21a", 10, 0),
        (b"\x00\x00\x01a", 11, 0),
        (b"\x01\x00\x01a", 11, 0),
        (b"\x0f\x00\x01a", 11, 0),
        (b"\x11\x00\x01a", 11, 0),
        (b"\xff\x00\x01a", 11, 0),
        (b"\x01\x00\x00", 11, 0),
        (b"\x01\x00\x01/", 11, 0),
        (b"\x10\x00\x02ab\x02\x00\x02ab", 11, 5),
        (b"\x10\x00\x00", 12, 0),
        (b"\x10\x00\x00\x10", 12, 0),
        (b"\x10\x00\x21abcdefghijklmnopqrstuvwxyzABCDEFG", 12, 0),
        (b"\x10\x00\x21 bcdefghijklmnopqrstuvwxyzABCDEF/", 12, 0),
        (b"\x10\x00\x01a\x10\x00\x00", 12, 4),
        (b"\x10\x00\x01 ", 13, 0),
        (b"\x10\x00\x01/", 13, 0),
        (b"\x10\x00\x01\x7f", 13, 0),
        (b"\x10\x00\x01\xe9", 13, 0),
        (b"\x10\x00\x03ab ", 13, 0),
        (b"\x10\x00\x20/bcdefghijklmnopqrstuvwxyzABCDEF", 13, 0),
        (b"\x10\x00\x02a \x10\x00\x02a ", 13, 0),
        (b"\x10\x00\x02ab\x10\x00\x02a/\x01", 13, 5),
        (b"\x10\x00\x02ab\x10\x00\x02ab", 17, 5),
        (b"\x10\x00\x02ab\x10\x00\x01a\x10\x00\x01a\x10", 17, 9),
        (
            b"\x10\x00\x02ab\x10\x00\x01a\x10\x00\x02ab\x10\x00\x01a",
            17,
            9,
        ),
    ];

    const SIXTEEN: &[u8] =
        b"\x10\x00\x01A\x10\x00\x01B\x10\x00\x01C\x10\x00\x01D\x10\x00\x01E\x10\x00\x01F\x10\x00\x01G\x10\x00\x01H\x10\x00\x01I\x10\x00\x01J\x10\x00\x01K\x10\x00\x01L\x10\x00\x01M\x10\x00\x01N\x10\x00\x01O\x10\x00\x01P";

    // Fields with a fault behind sixteen names, and the fault's number.
    const SEVENTEENTH: [(&[u8], u8); 9] = [
        (b"\x10", 10),
        (b"\x10\x00\x02Q", 10),
        (b"\x01\x00\x01Q", 11),
        (b"\x10\x00\x00", 12),
        (b"\x10\x00\x21abcdefghijklmnopqrstuvwxyzABCDEFG", 12),
        (b"\x10\x00\x01Q", 18),
        (b"\x10\x00\x01A", 18),
        (b"\x10\x00\x01/", 18),
        (b"\x10\x00\x01Q\x10", 18),
    ];

    const ALLOWED: [u8; 65] = *b"abcdefghijklmnopqrstuvwxyzABCDEFGHIJKLMNOPQRSTUVWXYZ0123456789_-.";

    // What loading a file comes to: how many names there are then, or what the fault tells.
    fn load(list: &mut NameList, bytes: &[u8], heap: Global) -> Result<usize, Option<Told>> {
        list.load(bytes, heap).map_err(Fault::told)?;
        Ok(list.len())
    }

    // A name list with this fault.
    fn refuses(
        rt: &impl Abort,
        list: &mut NameList,
        bytes: &[u8],
        number: u8,
        place: usize,
        heap: Global,
    ) {
        let fault = Some(Told {
            number,
            file: File::Names,
            place,
        });
        assert_eq!(rt; (load(list, bytes, heap), bytes), (Err(fault), bytes));
    }

    // A name list with this fault, alone and behind another.
    fn refuses_twice(
        rt: &impl Abort,
        list: &mut NameList,
        bytes: &[u8],
        number: u8,
        place: u8,
        heap: Global,
    ) -> Result<(), Fail> {
        let place = usize::from(place);
        refuses(rt, list, bytes, number, place, heap);
        let behind = [&b"\x10\x00\x03one"[..], bytes].concat(heap)?;
        refuses(rt, list, &behind, number, 6 + place, heap);
        Ok(())
    }

    // Whether the name with this number is this one.
    fn named(list: &NameList, number: usize, name: &[u8]) -> bool {
        list.name(number) == Some(name)
    }

    // A name list whose last name has this number.
    fn lists(rt: &impl Abort, bytes: &[u8], number: u8, last: &[u8], heap: Global) {
        let number = usize::from(number);
        let mut list = NameList::new(heap);
        assert_eq!(rt;
            (load(&mut list, bytes, heap), bytes),
            (Ok(number + 1), bytes)
        );
        assert!(rt; named(&list, number, last));
        assert!(rt; list.name(number + 1).is_none());
        assert_eq!(rt; list.find(last), Some(number));
    }

    // A field may be written out with any tag, one that has a case of its own too.
    #[test]
    fn a_field_has_its_part(rt: HostRuntime) -> Result<(), Fail> {
        let part = Part {
            place: 7,
            contents: b"gate",
        };
        assert_eq!(rt; Field::Name(part).part(), part);
        assert_eq!(rt; Field::Other(1, part).part(), part);
        assert_eq!(rt; Field::Other(200, part).part(), part);
        assert_eq!(rt; Field::with_tag(1, part), Field::Call(part));
        assert_eq!(rt; Field::with_tag(200, part), Field::Other(200, part));
        Ok(())
    }

    #[test]
    fn bad_lists(rt: HostRuntime) -> Result<(), Fail> {
        let heap = rt.alloc();
        let mut list = NameList::new(heap);
        refuses(&rt, &mut list, b"", 16, 0, heap);
        for (bytes, number, place) in BAD_LISTS {
            refuses_twice(&rt, &mut list, bytes, number, place, heap)?;
        }
        for (bytes, number) in SEVENTEENTH {
            let behind = [SIXTEEN, bytes].concat(heap)?;
            refuses(&rt, &mut list, &behind, number, 64, heap);
        }
        refuses(
            &rt,
            &mut list,
            &[&b"\x10\x01\x01"[..], &[b'a'; 257][..]].concat(heap)?,
            12,
            0,
            heap,
        );
        assert_eq!(rt; list.len(), 0);
        Ok(())
    }

    #[test]
    fn good_lists(rt: HostRuntime) {
        let heap = rt.alloc();
        lists(&rt, b"\x10\x00\x01.", 0, b".", heap);
        lists(&rt, SIXTEEN, 15, b"P", heap);
        lists(
            &rt,
            b"\x10\x00\x03one\x10\x00\x03One\x10\x00\x02on\x10\x00\x04ones",
            3,
            b"ones",
            heap,
        );
        lists(
            &rt,
            b"\x10\x00\x01.\x10\x00\x20abcdefghijklmnopqrstuvwxyzABCDEF\x10\x00\x20GHIJKLMNOPQRSTUVWXYZ0123456789_-",
            2,
            b"GHIJKLMNOPQRSTUVWXYZ0123456789_-",
            heap,
        );
        let mut list = NameList::new(heap);
        for byte in 0..=255u8 {
            let bytes = [16, 0, 1, byte];
            if ALLOWED.contains(&byte) {
                assert_eq!(rt; (load(&mut list, &bytes, heap), byte), (Ok(1), byte));
            } else {
                refuses(&rt, &mut list, &bytes, 13, 0, heap);
            }
        }
    }

    #[test]
    fn a_refused_load_leaves_the_list(rt: HostRuntime) {
        let heap = rt.alloc();
        let mut list = NameList::new(heap);
        assert_eq!(rt;
            load(&mut list, b"\x10\x00\x05visit\x10\x00\x04pass", heap),
            Ok(2)
        );
        refuses(&rt, &mut list, b"", 16, 0, heap);
        refuses(
            &rt,
            &mut list,
            b"\x10\x00\x03one\x10\x00\x03one",
            17,
            6,
            heap,
        );
        refuses(
            &rt,
            &mut list,
            b"\x10\x00\x03one\x10\x00\x03two\x10\x00\x05three\x10",
            10,
            20,
            heap,
        );
        assert_eq!(rt; list.len(), 2);
        assert!(rt; named(&list, 0, b"visit") && named(&list, 1, b"pass"));
        assert_eq!(rt;
            (list.find(b"visit"), list.find(b"pass"), list.find(b"one")),
            (Some(0), Some(1), None)
        );
        assert_eq!(rt; load(&mut list, b"\x10\x00\x03one", heap), Ok(1));
        assert_eq!(rt;
            (list.find(b"visit"), list.find(b"pass"), list.find(b"one")),
            (None, None, Some(0))
        );
    }

    const NAMES: &[u8] = b"\x10\x00\x05visit\x10\x00\x04pass";

    // Records with a fault, alone or behind letters, and the fault's number.
    const BAD_RECORDS: [(&[u8], u8); 31] = [
        (b"\x01", 10),
        (b"\x02\x00", 10),
        (b"\x03\x00\x01", 10),
        (b"\x01\x00\x05visi", 10),
        (b"\x01\x01\x05visit", 10),
        (b"\x10\x00\x06visit", 10),
        (b"\x01\x00\x21a", 10),
        (b"\x00\x00\x05visit", 11),
        (b"\x04\x00\x05visit", 11),
        (b"\x10\x00\x05visit", 11),
        (b"\xff\x00\x05visit", 11),
        (b"\x04\x00\x00", 11),
        (b"\x04\x00\x01/", 11),
        (b"\x01\x00\x00", 12),
        (b"\x02\x00\x00\x02", 12),
        (b"\x03\x00\x00", 12),
        (b"\x01\x00\x21abcdefghijklmnopqrstuvwxyzABCDEFG", 12),
        (b"\x02\x00\x21 bcdefghijklmnopqrstuvwxyzABCDEF/", 12),
        (b"\x01\x00\x05vis t", 13),
        (b"\x02\x00\x01/", 13),
        (b"\x03\x00\x05pass\x7f", 13),
        (b"\x01\x00\x05\xe9isit", 13),
        (b"\x01\x00\x01 \x10", 13),
        (b"\x03\x00\x20/bcdefghijklmnopqrstuvwxyzABCDEF", 13),
        (b"\x01\x00\x05Visit", 19),
        (b"\x02\x00\x03pas", 19),
        (b"\x03\x00\x05passs", 19),
        (b"\x01\x00\x01v", 19),
        (b"\x02\x00\x20abcdefghijklmnopqrstuvwxyzABCDEF", 19),
        (b"\x03\x00\x09visitpass", 19),
        (b"\x03\x00\x01v\x03", 19),
    ];

    const LETTERS: &[u8] = b"\x01\x00\x05visit\x02\x00\x04pass\x03\x00\x04pass";

    // Records, how many letters are read, and all that the buffer then holds, which is filled with 255 before.
    const ROOM_ENOUGH: [(&[u8], usize, &[u8]); 6] = [
        (b"", 0, &[]),
        (b"", 0, &[255]),
        (b"\x01\x00\x05visit", 1, &[0]),
        (LETTERS, 3, &[0, 17, 33]),
        (LETTERS, 3, &[0, 17, 33, 255]),
        (
            b"\x01\x00\x04pass\x02\x00\x05visit\x03\x00\x05visit",
            3,
            &[1, 16, 32, 255, 255],
        ),
    ];

    // The same of records that the buffer has no room for: the fault's number and place, and the buffer.
    const NO_ROOM: [(&[u8], u8, usize, &[u8]); 10] = [
        (b"\x01\x00\x05visit", 21, 0, &[]),
        (LETTERS, 21, 0, &[]),
        (LETTERS, 21, 8, &[0]),
        (LETTERS, 21, 15, &[0, 17]),
        (b"\x01\x00\x05visit\x02", 21, 0, &[]),
        (b"\x01\x00\x05visit\x02\x00\x04pas", 10, 8, &[0]),
        (b"\x01\x00\x05visit\x10\x00\x04pass", 11, 8, &[0]),
        (b"\x01\x00\x05visit\x02\x00\x00", 12, 8, &[0]),
        (b"\x01\x00\x05visit\x02\x00\x04pa/s", 13, 8, &[0]),
        (b"\x01\x00\x05visit\x02\x00\x04Pass", 19, 8, &[0]),
    ];

    // What reading or writing comes to, where a fault is of a record.
    type Outcome = Result<usize, (u8, usize)>;

    // Reading or writing from this comes to this outcome, and to this in the buffer.
    fn comes_to(
        rt: &impl Abort,
        from: &[u8],
        answer: Result<usize, Fault>,
        outcome: Outcome,
        buffer: &[u8],
        left: &[u8],
    ) {
        let expected = outcome.map_err(|(number, place)| Some(Told {
            number,
            file: File::Record,
            place,
        }));
        assert_eq!(rt; (answer.map_err(Fault::told), from), (expected, from));
        assert_eq!(rt; buffer, left);
    }

    // Reading a record into a buffer of this length, filled with 255, comes to this and leaves this.
    fn reads(
        rt: &impl Abort,
        names: &NameList,
        bytes: &[u8],
        outcome: Outcome,
        left: &[u8],
        heap: Global,
    ) -> Result<(), Fail> {
        let mut codes = vec![in heap; 255u8; left.len()]?;
        let read = read_record(names, bytes, &mut codes);
        comes_to(rt, bytes, read, outcome, &codes, left);
        Ok(())
    }

    #[test]
    fn records_read(rt: HostRuntime) -> Result<(), Fail> {
        let heap = rt.alloc();
        let names = list_of(NAMES, heap)?;
        for (bytes, number) in BAD_RECORDS {
            reads(&rt, &names, bytes, Err((number, 0)), &[255, 255, 255], heap)?;
            let behind = [&b"\x01\x00\x05visit\x02\x00\x04pass"[..], bytes].concat(heap)?;
            reads(
                &rt,
                &names,
                &behind,
                Err((number, 15)),
                &[0, 17, 255, 255],
                heap,
            )?;
        }
        for (bytes, count, left) in ROOM_ENOUGH {
            reads(&rt, &names, bytes, Ok(count), left, heap)?;
        }
        for (bytes, number, place, left) in NO_ROOM {
            reads(&rt, &names, bytes, Err((number, place)), left, heap)?;
        }
        reads(
            &rt,
            &names,
            &[&b"\x01\x01\x05"[..], &[b'a'; 261][..]].concat(heap)?,
            Err((12, 0)),
            &[255],
            heap,
        )?;
        reads(
            &rt,
            &NameList::new(heap),
            b"\x01\x00\x05visit",
            Err((19, 0)),
            &[],
            heap,
        )
    }

    // Letters, how many bytes are written, and all that the buffer then holds, which is filled with 255 before.
    const WRITTEN: [(&[u8], usize, &[u8]); 7] = [
        (&[], 0, b""),
        (&[], 0, b"\xff"),
        (&[0], 8, b"\x01\x00\x05visit"),
        (&[0, 17, 33], 22, LETTERS),
        (
            &[0, 17, 33],
            22,
            b"\x01\x00\x05visit\x02\x00\x04pass\x03\x00\x04pass\xff\xff",
        ),
        (
            &[1, 16, 32],
            23,
            b"\x01\x00\x04pass\x02\x00\x05visit\x03\x00\x05visit\xff",
        ),
        (&[33, 33], 14, b"\x03\x00\x04pass\x03\x00\x04pass"),
    ];

    // The same of letters that cannot be written: the fault's number and the letter's index, and the buffer.
    const UNWRITTEN: [(&[u8], u8, usize, &[u8]); 20] = [
        (&[48], 1, 0, b"\xff\xff\xff\xff\xff\xff\xff\xff"),
        (&[48], 1, 0, b""),
        (&[255, 2], 1, 0, b"\xff"),
        (
            &[0, 48],
            1,
            1,
            b"\x01\x00\x05visit\xff\xff\xff\xff\xff\xff\xff\xff",
        ),
        (&[0, 50, 0], 1, 1, b"\x01\x00\x05visit"),
        (&[2], 19, 0, b"\xff\xff\xff\xff\xff\xff\xff\xff"),
        (&[2], 19, 0, b""),
        (&[18, 48], 19, 0, b"\xff"),
        (&[47], 19, 0, b"\xff"),
        (
            &[0, 34],
            19,
            1,
            b"\x01\x00\x05visit\xff\xff\xff\xff\xff\xff\xff\xff",
        ),
        (&[0, 15, 0], 19, 1, b"\x01\x00\x05visit"),
        (&[0], 21, 0, b""),
        (&[0], 21, 0, b"\xff\xff\xff"),
        (&[0], 21, 0, b"\xff\xff\xff\xff\xff\xff\xff"),
        (&[0, 48], 21, 0, b"\xff\xff\xff\xff\xff\xff\xff"),
        (&[0, 2], 21, 0, b"\xff\xff\xff\xff\xff\xff\xff"),
        (&[0, 17], 21, 1, b"\x01\x00\x05visit"),
        (
            &[0, 17],
            21,
            1,
            b"\x01\x00\x05visit\xff\xff\xff\xff\xff\xff",
        ),
        (
            &[0, 17, 33],
            21,
            2,
            b"\x01\x00\x05visit\x02\x00\x04pass\xff\xff\xff\xff\xff\xff",
        ),
        (
            &[0, 16, 1],
            21,
            1,
            b"\x01\x00\x05visit\xff\xff\xff\xff\xff\xff\xff",
        ),
    ];

    // Writing letters to a buffer of this length, filled with 255, comes to this and leaves this.
    fn writes(
        rt: &impl Abort,
        names: &NameList,
        codes: &[u8],
        outcome: Outcome,
        left: &[u8],
        heap: Global,
    ) -> Result<(), Fail> {
        let mut out = vec![in heap; 255u8; left.len()]?;
        let written = write_record(names, codes, &mut out);
        comes_to(rt, codes, written, outcome, &out, left);
        Ok(())
    }

    #[test]
    fn letters_written(rt: HostRuntime) -> Result<(), Fail> {
        let heap = rt.alloc();
        let mut names = NameList::new(heap);
        writes(&rt, &names, &[0], Err((19, 0)), b"", heap)?;
        names.load(NAMES, heap)?;
        for (codes, count, left) in WRITTEN {
            writes(&rt, &names, codes, Ok(count), left, heap)?;
        }
        for (codes, number, place, left) in UNWRITTEN {
            writes(&rt, &names, codes, Err((number, place)), left, heap)?;
        }
        names.load(SIXTEEN, heap)?;
        writes(
            &rt,
            &names,
            &[15, 31, 47, 48],
            Err((1, 3)),
            b"\x01\x00\x01P\x02\x00\x01P\x03\x00\x01P\xff",
            heap,
        )
    }

    // Many of one byte, and others behind them.
    fn many(byte: u8, count: usize, back: &[u8], heap: Global) -> Result<Vec<u8>, AllocError> {
        let bytes = vec![in heap; byte; count]?;
        [bytes.as_slice(), back].concat(heap)
    }

    // A record of 8,191 calls of `visit`, which has 65,528 bytes, and others behind them.
    fn visits(back: &[u8], heap: Global) -> Result<Vec<u8>, AllocError> {
        let visits = b"\x01\x00\x05visit".repeat(heap, 8191)?;
        [visits.as_slice(), back].concat(heap)
    }

    #[test]
    fn long_records_read(rt: HostRuntime) -> Result<(), Fail> {
        let heap = rt.alloc();
        let names = list_of(NAMES, heap)?;
        let longest = visits(b"\x02\x00\x04pass", heap)?;
        assert_eq!(rt; longest.len(), 65535);
        reads(
            &rt,
            &names,
            &longest,
            Ok(8192),
            &many(0, 8191, &[17], heap)?,
            heap,
        )?;
        reads(
            &rt,
            &names,
            &longest,
            Ok(8192),
            &many(0, 8191, &[17, 255], heap)?,
            heap,
        )?;
        reads(
            &rt,
            &names,
            &longest,
            Err((21, 65528)),
            &many(0, 8191, &[], heap)?,
            heap,
        )?;
        let cut = visits(b"\x02\x00\x05visi", heap)?;
        reads(
            &rt,
            &names,
            &cut,
            Err((10, 65528)),
            &many(0, 8191, &[255], heap)?,
            heap,
        )?;
        let longer = visits(b"\x02\x00\x05visit", heap)?;
        assert_eq!(rt; longer.len(), 65536);
        reads(
            &rt,
            &names,
            &longer,
            Err((20, 0)),
            &many(255, 8192, &[], heap)?,
            heap,
        )?;
        reads(&rt, &names, &longer, Err((20, 0)), &[], heap)?;
        let bad = many(0, 65536, &[], heap)?;
        reads(&rt, &names, &bad, Err((20, 0)), &[255], heap)
    }

    #[test]
    fn long_records_written(rt: HostRuntime) -> Result<(), Fail> {
        let heap = rt.alloc();
        let names = list_of(NAMES, heap)?;
        let longest = visits(b"\x02\x00\x04pass", heap)?;
        let codes = many(0, 8191, &[17], heap)?;
        writes(&rt, &names, &codes, Ok(65535), &longest, heap)?;
        let kept = visits(
            b"\x02\x00\x04pass\xff\xff\xff\xff\xff\xff\xff\xff\xff",
            heap,
        )?;
        writes(&rt, &names, &codes, Ok(65535), &kept, heap)?;
        let more = many(0, 8191, &[17, 32], heap)?;
        writes(&rt, &names, &more, Err((21, 8192)), &kept, heap)?;
        let one_more = many(0, 8191, &[16], heap)?;
        let short = visits(b"\xff\xff\xff\xff\xff\xff\xff\xff\xff", heap)?;
        writes(&rt, &names, &one_more, Err((21, 8191)), &short, heap)
    }

    // Letters, written and read back, and the record that was written, read and written back.
    fn goes_round(
        rt: &impl Abort,
        names: &NameList,
        codes: &[u8],
        heap: Global,
    ) -> Result<(), Fail> {
        let mut out = [255u8; 64];
        let size = write_record(names, codes, &mut out)?;
        assert!(rt; size <= 64);
        let mut back = vec![in heap; 255u8; codes.len()]?;
        assert_eq!(rt;
            read_record(names, &out[0..size], &mut back),
            Ok(codes.len())
        );
        assert_eq!(rt; back.as_slice(), codes);
        writes(rt, names, &back, Ok(size), &out[0..size], heap)
    }

    #[test]
    fn records_go_round(rt: HostRuntime) -> Result<(), Fail> {
        let heap = rt.alloc();
        let mut names = list_of(NAMES, heap)?;
        goes_round(&rt, &names, &[], heap)?;
        goes_round(&rt, &names, &[0, 1, 16, 17, 32, 33], heap)?;
        goes_round(&rt, &names, &[33, 33, 0, 0, 0, 16, 17], heap)?;
        names.load(SIXTEEN, heap)?;
        for code in 0..48u8 {
            goes_round(&rt, &names, &[code, 47 - code, 0, code], heap)?;
        }
        Ok(())
    }

    type Checked = Result<Standing, Unchecked>;

    fn stands(accepts: bool, open: usize) -> Checked {
        Ok(Standing { accepts, open })
    }

    fn faulty(fault: Fault) -> Checked {
        Err(Unchecked::Faulty(fault))
    }

    fn refused(letter: usize, refusal: Refusal) -> Checked {
        Err(Unchecked::Refused(Stop { letter, refusal }))
    }

    // Checking a record with a machine and this many mark places comes to this and leaves these letters.
    fn checks<M: Machine>(
        rt: &impl Abort,
        machine: &M,
        places: usize,
        bytes: &[u8],
        outcome: Checked,
        left: &[u8],
        heap: Global,
    ) -> Result<(), Fail> {
        let names = list_of(NAMES, heap)?;
        let mut codes = vec![in heap; 255u8; left.len()]?;
        let mut marks = mark_row(machine, places, heap)?;
        let checked = check_record(&names, bytes, machine, &mut codes, &mut marks);
        assert_eq!(rt; (checked, bytes), (outcome, bytes));
        assert_eq!(rt; codes.as_slice(), left);
        Ok(())
    }

    #[test]
    fn records_checked(rt: HostRuntime) -> Result<(), Fail> {
        let heap = rt.alloc();
        checks(&rt, &Names, 0, b"", stands(true, 0), &[], heap)?;
        checks(
            &rt,
            &Names,
            1,
            b"\x01\x00\x05visit\x02\x00\x05visit",
            stands(true, 0),
            &[0, 16, 255],
            heap,
        )?;
        checks(
            &rt,
            &Names,
            1,
            b"\x01\x00\x05visit\x02\x00\x04pass",
            stands(false, 0),
            &[0, 17],
            heap,
        )?;
        checks(
            &rt,
            &Names,
            2,
            b"\x01\x00\x05visit\x01\x00\x04pass",
            stands(true, 2),
            &[0, 1],
            heap,
        )?;
        checks(
            &rt,
            &Depth::new(1),
            2,
            b"\x01\x00\x05visit\x01\x00\x04pass",
            stands(false, 2),
            &[0, 1],
            heap,
        )?;
        checks(
            &rt,
            &Depth::new(2),
            2,
            b"\x01\x00\x05visit\x01\x00\x04pass",
            stands(true, 2),
            &[0, 1],
            heap,
        )?;
        checks(
            &rt,
            &Names,
            0,
            b"\x03\x00\x04pass\x02\x00\x05visit",
            stands(true, 0),
            &[33, 16],
            heap,
        )
    }

    #[test]
    fn records_unchecked(rt: HostRuntime) -> Result<(), Fail> {
        let heap = rt.alloc();
        let full = Refusal::MarksFull;
        checks(
            &rt,
            &Names,
            0,
            b"\x01\x00\x05visit",
            refused(0, full),
            &[0, 255],
            heap,
        )?;
        checks(
            &rt,
            &Names,
            0,
            b"\x03\x00\x04pass\x01\x00\x05visit\x01\x00\x05visit",
            refused(1, full),
            &[33, 0, 0],
            heap,
        )?;
        checks(
            &rt,
            &Depth::new(9),
            1,
            b"\x01\x00\x05visit\x01\x00\x05visit",
            refused(1, full),
            &[0, 0],
            heap,
        )?;
        let first = File::Record.at(0);
        let second = File::Record.at(8);
        checks(
            &rt,
            &Names,
            4,
            b"\x04\x00\x05visit",
            faulty(Fault::Tag(first)),
            &[255],
            heap,
        )?;
        checks(
            &rt,
            &Names,
            0,
            b"\x01\x00\x05visit\x02\x00",
            faulty(Fault::Cut(second)),
            &[0, 255],
            heap,
        )?;
        checks(
            &rt,
            &Names,
            4,
            b"\x01\x00\x05visit\x02\x00\x03pas",
            faulty(Fault::Unlisted(second)),
            &[0, 255],
            heap,
        )?;
        checks(
            &rt,
            &Names,
            4,
            b"\x01\x00\x05visit\x02\x00\x04pass",
            faulty(Fault::NoRoom(second)),
            &[0],
            heap,
        )?;
        checks(
            &rt,
            &Names,
            4,
            &many(1, 65536, &[], heap)?,
            faulty(Fault::TooLong(first)),
            &[255],
            heap,
        )
    }
}
