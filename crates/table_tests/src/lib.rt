// Tests of the value table and of listings.
#![tactic(auto)]

#[cfg(test)]
mod tests {
    use listing::{Unlisted, list};
    use std::alloc::Global;
    use std::test::Fail;
    use values::{Member, Number, Table, Unentered};

    #[test]
    fn equal_values_have_one_number(rt: HostRuntime) -> Result<(), Fail> {
        let mut table = Table::new(rt.alloc())?;
        let gain = table.enter_text(b"gain")?;
        let zero = table.enter_text(b"zero")?;
        assert_ne!(rt; gain, zero);
        assert_eq!(rt; table.enter_text(b"gain")?, gain);
        let one = table.enter_binding(&[Member {
            name: gain,
            value: zero,
        }])?;
        assert_eq!(rt;
            table.enter_binding(&[Member {
                name: gain,
                value: zero,
            }],)?,
            one
        );
        assert_eq!(rt; table.member(one, b"gain"), Some(zero));
        assert_eq!(rt; table.member(one, b"zero"), None);
        assert_eq!(rt; table.len(), 5);
        Ok(())
    }

    #[test]
    fn what_is_no_binding_is_not_entered(rt: HostRuntime) -> Result<(), Fail> {
        let mut table = Table::new(rt.alloc())?;
        let a = table.enter_text(b"a")?;
        let b = table.enter_text(b"b")?;
        let blank = table.enter_text(b"a b")?;
        let none = Err(Unentered::Unfit);
        assert_eq!(rt;
            table.enter_binding(&[Member { name: b, value: a }, Member { name: a, value: a }]),
            none
        );
        assert_eq!(rt;
            table.enter_binding(&[Member { name: a, value: a }, Member { name: a, value: b }]),
            none
        );
        assert_eq!(rt;
            table.enter_binding(&[Member {
                name: blank,
                value: a,
            }],),
            none
        );
        assert_eq!(rt; table.enter_binding(&[Member { name: a, value: 99 }]), none);
        assert_eq!(rt;
            table.enter_binding(&[Member {
                name: table.truth(true),
                value: a,
            }],),
            none
        );
        assert_eq!(rt; table.enter_text(&[b'x'; 1025]), Err(Unentered::TooLong));
        assert_eq!(rt; table.len(), 5);
        Ok(())
    }

    #[test]
    fn a_table_taken_back_is_as_it_was(rt: HostRuntime) -> Result<(), Fail> {
        let mut table = Table::new(rt.alloc())?;
        let a = table.enter_text(b"a")?;
        let len = table.len();
        let b = table.enter_text(b"b")?;
        table.enter_binding(&[Member { name: a, value: b }])?;
        table.truncate(len);
        assert_eq!(rt; table.len(), len);
        assert_eq!(rt; table.enter_text(b"a")?, a);
        assert_eq!(rt; table.enter_text(b"c")?, b);
        Ok(())
    }

    #[test]
    fn a_value_that_is_no_binding_is_one_line(rt: HostRuntime) -> Result<(), Fail> {
        let mut table = Table::new(rt.alloc())?;
        let text = table.enter_text(b"1\t2\n\\")?;
        let mut buffer = [b'#'; 16];
        assert_eq!(rt; list(&table, text, &mut buffer), Ok(13));
        assert_eq!(rt; buffer, *b".\tt\t1\\t2\\n\\\\\n###");
        assert_eq!(rt; list(&table, table.truth(false), &mut buffer), Ok(10));
        assert_eq!(rt; buffer, *b".\tb\tFALSE\n\\\\\n###");
        assert_eq!(rt; list(&table, 99, &mut buffer), Err(Unlisted::UnknownNumber));
        Ok(())
    }

    #[test]
    fn a_short_buffer_is_left_alone(rt: HostRuntime) -> Result<(), Fail> {
        let table = Table::new(rt.alloc())?;
        let mut buffer = [b'#'; 8];
        assert_eq!(rt;
            list(&table, table.truth(true), &mut buffer),
            Err(Unlisted::ShortBuffer)
        );
        assert_eq!(rt; buffer, [b'#'; 8]);
        Ok(())
    }

    // 64 members that all have the same value.
    fn shared(heap: Global, table: &mut Table, value: Number) -> Result<Vec<Member>, Fail> {
        let mut members = Vec::new(heap);
        for i in 0..64u8 {
            let name = table.enter_text(&[b'A' + i / 26, b'a' + i % 26])?;
            members.push(Member { name, value })?;
        }
        Ok(members)
    }

    // 16 levels of 64 members list in 64 to the 16th lines; the answer comes at once.
    #[test]
    fn a_listing_without_end_is_refused(rt: HostRuntime) -> Result<(), Fail> {
        let heap = rt.alloc();
        let mut table = Table::new(heap)?;
        let mut value = table.truth(true);
        for _ in 0..16 {
            let members = shared(heap, &mut table, value)?;
            value = table.enter_binding(&members)?;
        }
        let higher = shared(heap, &mut table, value)?;
        assert_eq!(rt; table.enter_binding(&higher), Err(Unentered::TooHigh));
        let mut buffer = vec![in heap; 0u8; 1048576]?;
        assert_eq!(rt;
            list(&table, value, &mut buffer),
            Err(Unlisted::ShortBuffer)
        );
        Ok(())
    }
}
