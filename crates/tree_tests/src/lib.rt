// Tests of tree files: what is answered to each, with the place worked out by hand.
#![tactic(auto)]

#[cfg(test)]
mod tests {
    use std::alloc::{AllocError, Global};
    use std::test::Fail;
    use trees::check;

    // A file, and its refusal's number and place if it is refused.
    struct Case {
        file: &'static [u8],
        refused: Option<(u8, usize)>,
    }

    const CASES: [Case; 48] = [
        // The empty file is the empty binding.
        Case {
            file: b"",
            refused: None,
        },
        Case {
            file: b"a\tt\t\n",
            refused: None,
        },
        Case {
            file: b"a\tb\tTRUE\nb\tb\tFALSE\nc\te\t\n",
            refused: None,
        },
        // Name by name: a/b stands before a- and a., which stand before a0.
        Case {
            file: b"a/b\tt\t1\na-\tt\t2\na.\tt\t3\na0\tt\t4\n",
            refused: None,
        },
        Case {
            file: b"a/b/c\tt\t1\na/b/d\tt\t2\na/c\te\t\nb\tt\t3\n",
            refused: None,
        },
        // Every escape; and any other byte stands for itself.
        Case {
            file: b"a\tt\t\\n\\t\\\\\n",
            refused: None,
        },
        Case {
            file: b"a\tt\t\x00\r\x7f\xff\n",
            refused: None,
        },
        // A name of 32 bytes.
        Case {
            file: b"ABCDEFGHIJKLMNOPQRSTUVWXYZ01234_\tt\t\n",
            refused: None,
        },
        Case {
            file: b"...\tt\t\n",
            refused: None,
        },
        // 16 names to a text, 15 to an empty binding.
        Case {
            file: b"a/b/c/d/e/f/g/h/i/j/k/l/m/n/o/p\tt\t\n",
            refused: None,
        },
        Case {
            file: b"a/b/c/d/e/f/g/h/i/j/k/l/m/n/o\te\t\n",
            refused: None,
        },
        // No line feed at the end: of the first line, of the second.
        Case {
            file: b"a\tt\tx",
            refused: Some((8, 0)),
        },
        Case {
            file: b"a\tt\tx\nb",
            refused: Some((8, 6)),
        },
        // An empty line.
        Case {
            file: b"\n",
            refused: Some((8, 0)),
        },
        Case {
            file: b"a\tt\t\n\nb\tt\t\n",
            refused: Some((8, 5)),
        },
        // No tab, one, three.
        Case {
            file: b"a\n",
            refused: Some((8, 0)),
        },
        Case {
            file: b"a\tt\n",
            refused: Some((8, 0)),
        },
        Case {
            file: b"a\tt\tx\ty\n",
            refused: Some((8, 0)),
        },
        // An unknown kind, a kind of two bytes, content behind e, no truth words.
        Case {
            file: b"a\tx\t\n",
            refused: Some((8, 0)),
        },
        Case {
            file: b"a\ttt\t\n",
            refused: Some((8, 0)),
        },
        Case {
            file: b"a\te\tx\n",
            refused: Some((8, 0)),
        },
        Case {
            file: b"a\tb\ttrue\n",
            refused: Some((8, 0)),
        },
        Case {
            file: b"a\tb\t\n",
            refused: Some((8, 0)),
        },
        // A bare backslash, another pair.
        Case {
            file: b"a\tt\tx\\\n",
            refused: Some((8, 0)),
        },
        Case {
            file: b"a\tt\t\\q\n",
            refused: Some((8, 0)),
        },
        Case {
            file: b"a\tt\t\\\"\n",
            refused: Some((8, 0)),
        },
        // Empty names: the only one, the first, one between, the last.
        Case {
            file: b"\tt\t\n",
            refused: Some((8, 0)),
        },
        Case {
            file: b"/a\tt\t\n",
            refused: Some((8, 0)),
        },
        Case {
            file: b"a//b\tt\t\n",
            refused: Some((8, 0)),
        },
        Case {
            file: b"a/\tt\t\n",
            refused: Some((8, 0)),
        },
        // No names: `.`, `..`, a blank within, 33 bytes.
        Case {
            file: b".\tt\t\n",
            refused: Some((8, 0)),
        },
        Case {
            file: b"a\tt\t\nb/..\tt\t\n",
            refused: Some((8, 5)),
        },
        Case {
            file: b"a b\tt\t\n",
            refused: Some((8, 0)),
        },
        Case {
            file: b"ABCDEFGHIJKLMNOPQRSTUVWXYZ01234_x\tt\t\n",
            refused: Some((8, 0)),
        },
        // The same path twice, a smaller one, one above, one below.
        Case {
            file: b"a\tt\t\na\tt\t\n",
            refused: Some((9, 5)),
        },
        Case {
            file: b"b\tt\t\na\tt\t\n",
            refused: Some((9, 5)),
        },
        Case {
            file: b"a/b\tt\t\na\tt\t\n",
            refused: Some((9, 7)),
        },
        Case {
            file: b"a\tt\t\na/b\tt\t\n",
            refused: Some((9, 5)),
        },
        Case {
            file: b"a\te\t\na/b\tt\t\n",
            refused: Some((9, 5)),
        },
        // Below an earlier path that is not the last one.
        Case {
            file: b"a\tt\t\na-\tt\t\na/b\tt\t\n",
            refused: Some((9, 11)),
        },
        // A binding that was left is not gone back to.
        Case {
            file: b"a/b\tt\t\nb\tt\t\na/c\tt\t\n",
            refused: Some((9, 12)),
        },
        Case {
            file: b"a/c\tt\t\na/b\tt\t\n",
            refused: Some((9, 7)),
        },
        // 17 names, 16 to an empty binding.
        Case {
            file: b"a/b/c/d/e/f/g/h/i/j/k/l/m/n/o/p/q\tt\t\n",
            refused: Some((10, 0)),
        },
        Case {
            file: b"a/b/c/d/e/f/g/h/i/j/k/l/m/n/o/p\te\t\n",
            refused: Some((10, 0)),
        },
        // In one line 8 goes before 9 before 10.
        Case {
            file: b"b\tt\t\na\tx\t\n",
            refused: Some((8, 5)),
        },
        Case {
            file: b"b\tt\t\na/b/c/d/e/f/g/h/i/j/k/l/m/n/o/p/q\tt\t\n",
            refused: Some((9, 5)),
        },
        Case {
            file: b"a/b/c/d/e/f/g/h/i/j/k/l/m/n/o/p/q\tt\t\\\n",
            refused: Some((8, 0)),
        },
        // The first such line counts.
        Case {
            file: b"a/b\tt\t\na\tt\t\nx\n",
            refused: Some((9, 7)),
        },
    ];

    // The number and place of a file's refusal, if it is refused.
    fn judged(file: &[u8]) -> Option<(u8, usize)> {
        match check(file) {
            Ok(()) => None,
            Err(refused) => Some((refused.refusal.number(), refused.place)),
        }
    }

    #[test]
    fn files_are_judged_as_worked_out_by_hand(rt: HostRuntime) {
        for case in &CASES {
            assert_eq!(rt; judged(case.file), case.refused);
        }
    }

    // A line of a text, so many times a piece: 4 bytes, the pieces, a line feed.
    fn text_line(heap: Global, piece: &[u8], times: usize) -> Result<Vec<u8>, AllocError> {
        let mut file = Vec::from_slice(heap, b"a\tt\t")?;
        for _ in 0..times {
            file.extend_from_slice(piece)?;
        }
        file.push(b'\n')?;
        Ok(file)
    }

    #[test]
    fn texts_have_at_most_1024_bytes(rt: HostRuntime) -> Result<(), Fail> {
        let heap = rt.alloc();
        assert_eq!(rt; judged(&text_line(heap, b"x", 1024)?), None);
        assert_eq!(rt; judged(&text_line(heap, b"x", 1025)?), Some((10, 0)));
        // An escape is one byte of the text.
        assert_eq!(rt; judged(&text_line(heap, b"\\n", 1024)?), None);
        assert_eq!(rt; judged(&text_line(heap, b"\\n", 1025)?), Some((10, 0)));
        Ok(())
    }

    // Lines of 7 bytes, under names of two letters.
    fn many_lines(heap: Global, count: u8) -> Result<Vec<u8>, AllocError> {
        let mut file = Vec::new(heap);
        for i in 0..count {
            file.push(b'A' + i / 26 % 26)?;
            file.push(b'a' + i % 26)?;
            file.extend_from_slice(b"\tt\tx\n")?;
        }
        Ok(file)
    }

    #[test]
    fn bindings_have_at_most_64_members(rt: HostRuntime) -> Result<(), Fail> {
        let heap = rt.alloc();
        assert_eq!(rt; judged(&many_lines(heap, 64)?), None);
        assert_eq!(rt; judged(&many_lines(heap, 65)?), Some((10, 448)));
        Ok(())
    }

    // 32 lines of 1,024 bytes: 2 of the name, 3 of kind and tabs, 1,018 of the text, a line feed.
    fn longest_file(heap: Global) -> Result<Vec<u8>, AllocError> {
        let mut file = Vec::new(heap);
        for i in 0..32u8 {
            file.push(b'A' + i / 26)?;
            file.push(b'a' + i % 26)?;
            file.extend_from_slice(b"\tt\t")?;
            for _ in 0..1018 {
                file.push(b'x')?;
            }
            file.push(b'\n')?;
        }
        Ok(file)
    }

    #[test]
    fn files_have_at_most_32768_bytes(rt: HostRuntime) -> Result<(), Fail> {
        let mut file = longest_file(rt.alloc())?;
        assert_eq!(rt; file.len(), 32768);
        assert_eq!(rt; judged(&file), None);
        file.push(b'x')?;
        assert_eq!(rt; judged(&file), Some((1, 0)));
        Ok(())
    }
}
