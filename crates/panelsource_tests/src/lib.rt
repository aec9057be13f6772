// Tests of the source language and of the builder's limits.
#![tactic(auto)]

#[cfg(test)]
mod tests {
    use panelsource::source::parse_source;
    use std::alloc::Global;
    use std::process::Abort;
    use std::test::Fail;

    // The source is packed into these bytes between header and text.
    fn packs(
        rt: &impl Abort,
        heap: Global,
        source: &str,
        header: &[u8],
        rest: &[u8],
    ) -> Result<(), Fail> {
        let mut expected = Vec::from_slice(heap, header)?;
        expected.extend_from_slice(rest)?;
        let file = match parse_source(heap, source) {
            Ok(builder) => builder.finish(heap)?,
            Err(error) => return Err(Fail::new(error)),
        };
        assert_eq!(rt; file, expected);
        Ok(())
    }

    // The source is refused with this message.
    fn refuses(rt: &impl Abort, heap: Global, source: &str, message: &str) -> Result<(), Fail> {
        let Err(error) = parse_source(heap, source) else {
            return Err(Fail::new("not refused"));
        };
        let found = format!(in heap; "{error}")?;
        assert_eq!(rt; found.as_str(), message);
        Ok(())
    }

    #[test]
    fn records_are_packed(rt: HostRuntime) -> Result<(), Fail> {
        let heap = rt.alloc();
        packs(
            &rt,
            heap,
            "name ab\ntext c # and a comment\nname-at 258 3\n\nvalue promoted 1 use-ref 1..65536",
            b"PC\x02\x00\x01\x00\x00\x00\x00\x00\x00\x00\x00\x00\x00\x00\x00\x00\x03\x00\x00\x00",
            b"NM\x00\x00\x02\x00NM\x02\x01\x03\x00VA\x02\x00\x01\x00\x03\x00\x01\x00\x00\x00\x00\x00\x01\x00TXabc",
        )?;
        packs(
            &rt,
            heap,
            "panel hook\nblock 3 preds 0+1 phis 4+5 instructions 6+7 return 8\npredecessor 9\nphi 1 operands 2+3",
            b"PC\x00\x00\x00\x00\x00\x00\x01\x00\x01\x00\x01\x00\x00\x00\x00\x00\x00\x00\x01\x00",
            b"BL\x03\x00\x00\x00\x01\x00\x04\x00\x05\x00\x06\x00\x07\x00\x01\x00\x08\x00PR\x09\x00PH\x01\x00\x02\x00\x03\x00TX",
        )
    }

    #[test]
    fn any_numbers_are_packed(rt: HostRuntime) -> Result<(), Fail> {
        let heap = rt.alloc();
        packs(
            &rt,
            heap,
            "panel 9\ninstruction 7 order 1 lvalues 0+9 operands 8+7\nrepeat 2 mention hole",
            b"PC\x00\x00\x00\x00\x00\x00\x00\x00\x00\x00\x00\x00\x01\x00\x02\x00\x00\x00\x09\x00",
            b"IN\x07\x00\x01\x00\x00\x00\x00\x00\x09\x00\x08\x00\x07\x00\x00\x00\x00\x00\x00\x00\x00\x00ME\x00\x00\x02\x00\x00\x00\x00\x00\x00\x00\x00\x00\x00\x00\x00\x00ME\x00\x00\x02\x00\x00\x00\x00\x00\x00\x00\x00\x00\x00\x00\x00\x00TX",
        )?;
        packs(
            &rt,
            heap,
            "raw predecessor f1 0a\nraw text 23 ff",
            b"PC\x00\x00\x00\x00\x00\x00\x00\x00\x01\x00\x00\x00\x00\x00\x00\x00\x02\x00\x00\x00",
            b"PR\xf1\x0aTX#\xff",
        )
    }

    #[test]
    fn errors_name_their_line(rt: HostRuntime) -> Result<(), Fail> {
        let heap = rt.alloc();
        refuses(
            &rt,
            heap,
            "panel hook\n\nvalue unnamed # no type",
            "line 3: a type is missing",
        )?;
        refuses(
            &rt,
            heap,
            "function params 3 blocks 0+0",
            "line 1: `3` is not a list start+count",
        )?;
        refuses(
            &rt,
            heap,
            "mention place 1 read 5..",
            "line 1: `5..` is not a range start..end",
        )?;
        refuses(
            &rt,
            heap,
            "predecessor 65536",
            "line 1: `65536` is not a block id",
        )?;
        refuses(&rt, heap, "predecessor 1 2", "line 1: `2` is left over")?;
        refuses(
            &rt,
            heap,
            "repeat 2 nothing",
            "line 1: `nothing` is not a statement",
        )?;
        refuses(
            &rt,
            heap,
            "raw phi 00",
            "line 1: a phi record has 6 bytes behind its mark",
        )
    }

    #[test]
    fn limits_are_kept(rt: HostRuntime) -> Result<(), Fail> {
        let heap = rt.alloc();
        let full = "line 2: more than 65535 predecessor records";
        refuses(&rt, heap, "repeat 65535 predecessor 0\npredecessor 0", full)?;
        let long = "line 3: more than 65535 bytes of text";
        refuses(&rt, heap, "repeat 65534 text a\ntext b\nname c", long)
    }
}
