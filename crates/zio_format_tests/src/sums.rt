use zio_blkptr::SumKind;
use zio_cksum::{gang_sum, sum, verify};
use zio_types::Place;

#[test]
fn fletcher4_adds_each_sum_to_the_next(rt: HostRuntime) {
    let mut bytes = [0u8; 512];
    for i in 0..128 {
        bytes[4 * i] = 1;
    }
    let words = [128, 8256, 357_760, 11_716_640];
    assert_eq!(rt; sum(SumKind::Fletcher4, &bytes), words);
    assert_eq!(rt; sum(SumKind::Fletcher4, &[]), [0; 4]);
    assert!(rt; verify(SumKind::Fletcher4, &bytes, &words));
    assert!(rt; !verify(SumKind::Fletcher4, &[], &words));
}

// The digests of the examples of FIPS 180-4, of one block and of two.
#[test]
fn sha256_is_that_of_the_standard(rt: HostRuntime) {
    let of_abc = [
        0xba78_16bf_8f01_cfea,
        0x4141_40de_5dae_2223,
        0xb003_61a3_9617_7a9c,
        0xb410_ff61_f200_15ad,
    ];
    assert_eq!(rt; sum(SumKind::Sha256, b"abc"), of_abc);
    assert!(rt; verify(SumKind::Sha256, b"abc", &of_abc));
    let two_blocks = b"abcdbcdecdefdefgefghfghighijhijkijkljklmklmnlmnomnopnopq";
    let of_two_blocks = [
        0x248d_6a61_d206_38b8,
        0xe5c0_2693_0c3e_6039,
        0xa33c_e459_64ff_2167,
        0xf6ec_edd4_19db_06c1,
    ];
    assert_eq!(rt; sum(SumKind::Sha256, two_blocks), of_two_blocks);
}

#[test]
fn off_passes_whatever_the_words(rt: HostRuntime) {
    assert_eq!(rt; sum(SumKind::Off, b"abc"), [0; 4]);
    assert!(rt; verify(SumKind::Off, b"abc", &[1, 2, 3, 4]));
}

// What sha256sum gives of 480 bytes 0xab and the little-endian words 3, 2560, 9 and 0.
#[test]
fn gang_sum_has_the_place_in_bytes(rt: HostRuntime) {
    let place = Place {
        top: 3,
        sector: 5,
        sectors: 1,
    };
    let words = [
        0xe41c_29fd_c5ae_cc31,
        0xa7ce_55e5_0ed4_9008,
        0x0560_940f_ebb1_f229,
        0x93d8_bd89_315c_4baf,
    ];
    assert_eq!(rt; gang_sum(&[0xab; 512], &place, 9), words);
}
