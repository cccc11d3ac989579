use zio_gang::{Split, split};

#[test]
fn the_first_members_have_the_sectors_that_are_left_over(rt: HostRuntime) {
    let largest = Split {
        n: 3,
        sizes: [44_032, 43_520, 43_520],
    };
    assert_eq!(rt; split(131_072), largest);
    let four = Split {
        n: 3,
        sizes: [1024, 512, 512],
    };
    assert_eq!(rt; split(2048), four);
}

#[test]
fn a_small_block_has_fewer_members(rt: HostRuntime) {
    let two = Split {
        n: 2,
        sizes: [512, 512, 0],
    };
    assert_eq!(rt; split(1024), two);
    let one = Split {
        n: 1,
        sizes: [512, 0, 0],
    };
    assert_eq!(rt; split(512), one);
}
