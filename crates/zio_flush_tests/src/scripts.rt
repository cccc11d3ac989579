//! Scripts in steps, each of which is a round, with what their blocks hold.

/// A script over two images.
#[derive(Clone, Copy)]
pub(crate) struct Case {
    /// Its tops alone.
    pub(crate) tops: &'static [u8],
    /// Each step is one round.
    pub(crate) steps: &'static [&'static [u8]],
    /// The bytes of its images.
    pub(crate) first_len: usize,
    pub(crate) second_len: usize,
    /// What a read of each of its blocks is told by, after the request's number.
    pub(crate) reads: &'static [&'static [u8]],
    /// How many of its blocks it leaves bound.
    pub(crate) left: usize,
}

/// A mirror whose bad leaf is mended by a read.
pub(crate) const MENDED: Case = Case {
    tops: b"top 0 1\n",
    steps: &[
        b"top 0 1\nfault 0 write 0 65536 0 1 flip\n1 write x sha256 1 sync fill 41 512\ngo\n",
        b"clear\n2 read x sync\ngo\n",
    ],
    first_len: 65536,
    second_len: 65536,
    reads: &[b" read x ok 512 20a0a0a080:83878787040:16439b9b85580:2d92628254f020\n"],
    left: 1,
};

/// A write that finishes once its second top is back, is read beside another, and is freed beside a third.
pub(crate) const RETRIED: Case = Case {
    tops: b"top 0\ntop 1\n",
    steps: &[
        b"top 0\ntop 1\nfault 1 write 0 65536 0 1 gone\n1 write x sha256 2 sync fill 41 512\ngo\n",
        b"clear\n",
        b"2 read x sync\n3 write y sha256 2 sync fill 42 512\ngo\n",
        b"4 free x\n5 write z sha256 1 sync fill 44 512\n6 read y sync\ngo\n",
    ],
    first_len: 65536,
    second_len: 65536,
    reads: &[
        b" read x ok 512 20a0a0a080:83878787040:16439b9b85580:2d92628254f020\n",
        b" read y ok 512 2121212100:858d8d8d080:169b4b4b34b00:2e45de1defd840\n",
        b" read z ok 512 2222222200:89999999100:174aaaaa93600:2facd55525a880\n",
    ],
    left: 2,
};

/// A tree that goes on after a clear without the child that has finished.
pub(crate) const RESUMED: Case = Case {
    tops: b"top 0\ntop 1\n",
    steps: &[
        b"top 0\ntop 1\nfault 1 any 0 65536 0 1 gone\n1 write p sha256 1 async fill 00 512\n\
            2 write a sha256 1 async fill 41 66048 under 1\n3 write b sha256 2 async fill 42 512 under 1\ngo\n",
        b"clear\n",
        b"4 read a sync\n5 write d sha256 1 sync fill 44 512\ngo\n",
    ],
    first_len: 196608,
    second_len: 65536,
    reads: &[
        b" read p ok 1024 ",
        b" read a ok 66048 1070f0f0e080:2124292d0c09040:89f8d63f61f31580:33f95ebaf9310020\n",
        b" read b ok 512 2121212100:858d8d8d080:169b4b4b34b00:2e45de1defd840\n",
        b" read d ok 512 2222222200:89999999100:174aaaaa93600:2facd55525a880\n",
    ],
    left: 4,
};

/// A gang of two members on a mirror that lost what was written to its second leaf; a read mends that, and then places
/// beside it are freed and written.
pub(crate) const GANG: Case = Case {
    tops: b"top 0 1\n",
    steps: &[
        b"top 0 1\nfault 1 write 0 65536 0 1 eio\n1 claim f \
            29000000000000000100000000000000\
            29000000000000002b00000000000000\
            29000000000000005500000000000000\
            28002800020200800000000000000000\
            00000000000000000000000000000000\
            01000000000000000100000000000000\
            00000000000000000000000000000000\
            00000000000000000000000000000000\ngo\n",
        b"2 claim g \
            01000000000000007e00000000000000\
            00000000000000000000000000000000\
            00000000000000000000000000000000\
            00000000020200800000000000000000\
            00000000000000000000000000000000\
            01000000000000000100000000000000\
            00000000000000000000000000000000\
            00000000000000000000000000000000\ngo\n",
        b"3 write x fletcher4 1 sync fill 41 1024\ngo\n",
        b"clear\n4 read x sync\ngo\n",
        b"5 free f\n6 read x sync\ngo\n",
        b"7 write y sha256 2 sync fill 44 512\n8 read x sync\ngo\n",
    ],
    first_len: 65536,
    second_len: 65536,
    reads: &[
        b" read f ok 20992 0:0:0:0\n",
        b" read g ok 512 0:0:0:0\n",
        b" read x ok 1024 4141414100:20c141412080:b00ebebe0eb00:2c87babe9237040\n",
        b" read y ok 512 2222222200:89999999100:174aaaaa93600:2facd55525a880\n",
    ],
    left: 3,
};
