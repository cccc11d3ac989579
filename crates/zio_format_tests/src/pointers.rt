use std::test::Fail;
use zio_blkptr::{Bp, SumKind, bp_text, decode, encode, is_valid};
use zio_types::Place;

const NO_PLACE: Place = Place {
    top: 0,
    sector: 0,
    sectors: 0,
};

#[test]
fn text_has_the_low_byte_of_each_word_first(rt: HostRuntime) -> Result<(), Fail> {
    let place = Place {
        top: 1,
        sector: 32,
        sectors: 2,
    };
    let bp = Bp {
        count: 1,
        places: [place, NO_PLACE, NO_PLACE],
        gang: false,
        size: 1024,
        sum: SumKind::Sha256,
        birth: 9,
        words: [1, 2, 3, 4],
    };
    assert!(rt; is_valid(&bp));
    let text = bp_text(rt.alloc(), &bp)?;
    let words = "02000000010000002000000000000000\
                 00000000000000000000000000000000\
                 00000000000000000000000000000000\
                 01000100020800800000000000000000\
                 00000000000000000000000000000000\
                 09000000000000000100000000000000\
                 01000000000000000200000000000000\
                 03000000000000000400000000000000";
    assert_eq!(rt; text.as_str(), words);
    assert_eq!(rt; decode(&encode(&bp)), Ok(bp));
    Ok(())
}
