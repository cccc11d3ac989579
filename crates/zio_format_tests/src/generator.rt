use std::test::Fail;
use zio_gen::gen_;

/// FNV-1a of 64 bits.
fn fnv(text: &str) -> u64 {
    let mut hash = 14_695_981_039_346_656_037u64;
    for byte in text.as_bytes() {
        hash = (hash ^ u64::from(*byte)).wrapping_mul(1_099_511_628_211);
    }
    hash
}

#[test]
fn one_block_from_seed_seven(rt: HostRuntime) -> Result<(), Fail> {
    let text = gen_(rt.alloc(), 7, 1)?;
    assert_eq!(rt;
        text.as_str(),
        "top 0 1\ntop 2 3\nfault 2 any 0 268435456 0 1 gone\nfault 3 any 0 268435456 0 1 gone\nfault 0 read 0 268435456 0 2 eio\n1 write b1 sha256 1 async seq 8 9728\ngo\n2 read b1 async must\ngo\n3 free b1 must\ngo\nclear\nclear\n"
    );
    Ok(())
}

/// The figures are those of a program in another language, whose blocks have 850,944 bytes together.
#[test]
fn a_hundred_blocks_have_three_hundred_requests(rt: HostRuntime) -> Result<(), Fail> {
    let text = gen_(rt.alloc(), 7, 100)?;
    assert_eq!(rt; text.as_str().len(), 8506);
    assert_eq!(rt; fnv(text.as_str()), 17_019_715_186_915_061_626);
    Ok(())
}

#[test]
fn the_largest_script_is_made(rt: HostRuntime) -> Result<(), Fail> {
    let text = gen_(rt.alloc(), 4_294_967_295, 20_000)?;
    assert_eq!(rt; text.as_str().len(), 2_115_703);
    Ok(())
}
