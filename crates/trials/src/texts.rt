//! Texts of answers that are read, and printed again byte for byte.

use answers::size;
use std::test::Fail;
use witness_format::{print, read};

/// Texts, with the numerator and the denominator of the size.
const TEXTS: [(&[u8], u128, u128); 6] = [
    (
        b"answer 1 circle\nsize 0/1\ncenter -200000 200000 1\nsupports 1\n9999 1\nend\n",
        0,
        1,
    ),
    (
        b"answer 1 circle\nsize 5/1\ncenter 0 0 1\nsupports 3\n0 0\n0 0\n0 85070591730234615865843651857942052864\nend\n",
        5,
        1,
    ),
    (
        b"answer 1 sphere\nsize 3/4\ncenter 1 -2 3 4\nsupports 4\n7 18446744073709551617\n0 2\n5 1\n6 1\nend\n",
        3,
        4,
    ),
    (
        b"answer 1 centres\nsize 1/1\nsquares 2\n1 1 1\n11 11 1\nleaves 4\n2 3\n0 3\n0 3\n0 2\nend\n",
        1,
        1,
    ),
    (
        b"answer 1 centres\nsize 0/1\nsquares 1\n-7 0 1\nleaves 0\nend\n",
        0,
        1,
    ),
    (
        b"answer 1 centres\nsize 85070591730234615865843651857942052864/85070591730234615865843651857942052863\nsquares 1\n-85070591730234615865843651857942052864 0 85070591730234615865843651857942052863\nleaves 0\nend\n",
        85070591730234615865843651857942052864,
        85070591730234615865843651857942052863,
    ),
];

#[test]
fn texts_are_printed_as_they_are_read(rt: HostRuntime) -> Result<(), Fail> {
    let alloc = rt.alloc();
    for (text, numerator, denominator) in TEXTS {
        assert!(rt; text.len() <= 1 << 23);
        let answer = read(alloc, text)?;
        let found = size(&answer);
        assert_eq!(rt;
            (found.num(), found.den()),
            (numerator, denominator),
            "{text:?}"
        );
        let printed = print(alloc, &answer)?;
        assert!(rt; printed.as_slice() == text, "{text:?} is printed otherwise");
    }
    Ok(())
}
