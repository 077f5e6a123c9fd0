//! Texts of instances: the first wrong token, what the tokens say, where the rest begins, and what
//! is printed.

use super::*;
use mill_model::{Instance, Order};
use std::alloc::Global;
use std::test::*;

const fn byte(at: usize) -> InstanceError {
    InstanceError::BadByte { at }
}

const fn short(token: u32) -> InstanceError {
    InstanceError::Short { token }
}

const fn range(what: Field, token: u32) -> InstanceError {
    InstanceError::OutOfRange { what, token }
}

#[test]
fn the_first_wrong_token_is_named(rt: HostRuntime) {
    let rows: [(&[u8], InstanceError); 7] = [
        (b"", short(1)),
        (b"1 4 1 2 1 1 1\n", short(8)),
        (b"1 4 1 0x\n", byte(7)),
        (b"4\x0b1 4\n", byte(1)),
        (b"1 4 1 1025\n", range(Field::OrderCount, 4)),
        (b"1 4 1 1 18446744073709551620 1\n", range(Field::Weight, 5)),
        (b"1025x\n", byte(4)),
    ];
    for (text, why) in rows {
        assert_eq!(rt;
            read_instance(rt.alloc(), text, 2).err(),
            Some(why),
            "{why}"
        );
    }
}

#[test]
fn refusals_name_a_field_in_words(rt: HostRuntime) {
    let rows = [
        (Field::SizeCount, "sizecount"),
        (Field::Size, "size"),
        (Field::ColourCount, "colourcount"),
        (Field::OrderCount, "orders"),
        (Field::Weight, "weight"),
        (Field::Colour, "colour"),
    ];
    for (what, name) in rows {
        assert_eq!(rt; what.name(), name);
    }
}

// Whether a text is read as an instance of these numbers that ends before a place.
fn reads(
    alloc: Global,
    text: &[u8],
    sizes: &[u32],
    colours: u16,
    orders: &[Order],
    end: usize,
) -> bool {
    let Ok((instance, at)) = read_instance(alloc, text, 3) else {
        return false;
    };
    instance.sizes() == sizes
        && instance.colours() == colours
        && instance.orders() == orders
        && instance.p() == 3
        && at == end
}

const fn order(weight: u32, colour: u16) -> Order {
    Order { weight, colour }
}

#[test]
fn an_instance_is_what_its_tokens_say(rt: HostRuntime) {
    let alloc = rt.alloc();
    let three = [order(1, 1), order(1, 2), order(2, 3)];
    let rows: [(&[u8], &[u32], u16, &[Order], usize); 3] = [
        (b"1 4\n3\n3\n1 1\n1 2\n2 3\n", &[4], 3, &three, 19),
        (b"4 9 4 9 4 1 1 5 1\n", &[4, 9], 1, &[order(5, 1)], 17),
        (b"1 1 0 0 optimal\n", &[1], 0, &[], 7),
    ];
    for (text, sizes, colours, orders, end) in rows {
        assert!(rt;
            reads(alloc, text, sizes, colours, orders, end),
            "the end is {end}"
        );
    }
}

#[test]
fn the_rest_begins_at_the_first_byte_that_is_not_white_space(rt: HostRuntime) {
    let rows: [(&[u8], usize, Option<usize>); 3] = [
        (b"1 4 1 0\r\n\t end", 7, Some(11)),
        (b"1 4 1 0\n\x0b", 7, Some(8)),
        (b"1 4 1 0", 7, None),
    ];
    for (text, from, at) in rows {
        assert_eq!(rt; first_not_blank(text, from), at);
    }
}

#[test]
fn the_printed_text_is_canonical_and_reads_back(rt: HostRuntime) -> Result<(), Fail> {
    let alloc = rt.alloc();
    let rows: [(&[u8], &[u8]); 2] = [
        (b"1 4 3 3 1 1 1 2 2 3", b"1 4\n3\n3\n1 1\n1 2\n2 3\n"),
        (b"\n4 9 4 9 2 1 000", b"3 2 4 9\n1\n0\n"),
    ];
    for (text, printed) in rows {
        let (instance, _) = read_instance(alloc, text, 3)?;
        let out = print_instance(alloc, &instance)?;
        assert_eq!(rt; out.as_slice(), printed);
        let (again, end) = read_instance(alloc, out.as_slice(), 3)?;
        assert_eq!(rt; again.sizes(), instance.sizes());
        assert_eq!(rt; again.orders(), instance.orders());
        assert_eq!(rt; first_not_blank(out.as_slice(), end), None);
    }
    Ok(())
}
