use crate::tag::doubled;
use crate::{Prg, cmac};
use aes_block::Key;

const KEY: u128 = 0x2b7e151628aed2a6abf7158809cf4f3c;

// NIST SP 800-38B, D.1, and RFC 4493, section 4: the subkeys.
#[test]
fn doubles_to_the_published_subkeys(rt: HostRuntime) {
    let zero = Key::new(KEY.to_be_bytes()).encrypt([0; 16]);
    let first = doubled(zero);
    assert_eq!(rt;
        u128::from_be_bytes(first),
        0xfbeed618357133667c85e08f7236a8de
    );
    assert_eq!(rt;
        u128::from_be_bytes(doubled(first)),
        0xf7ddac306ae266ccf90bc11ee46d513b
    );
}

// RFC 4493, section 4: tags of the first bytes of one text.
#[test]
fn tags_the_published_texts(rt: HostRuntime) {
    let mut text = [0; 64];
    text[..16].copy_from_slice(&0x6bc1bee22e409f96e93d7e117393172a_u128.to_be_bytes());
    text[16..32].copy_from_slice(&0xae2d8a571e03ac9c9eb76fac45af8e51_u128.to_be_bytes());
    text[32..48].copy_from_slice(&0x30c81c46a35ce411e5fbc1191a0a52ef_u128.to_be_bytes());
    text[48..].copy_from_slice(&0xf69f2445df4f9b17ad2b417be66c3710_u128.to_be_bytes());
    let key = Key::new(KEY.to_be_bytes());
    let tags: [(&[u8], u128); 4] = [
        (&text[..0], 0xbb1d6929e95937287fa37d129b756746),
        (&text[..16], 0x070a16b46b4d4144f79bdd9dd04a287c),
        (&text[..40], 0xdfa66747de9ae63030ca32611497c827),
        (&text, 0x51f0bebf7e3b9d92fc49741779363cfe),
    ];
    for (part, tag) in tags {
        assert_eq!(rt;
            u128::from_be_bytes(cmac(&key, part)),
            tag,
            "{} bytes",
            part.len()
        );
    }
}

// The values are those of a plain second writing of the stream.
#[test]
fn reads_the_stream_in_any_pieces(rt: HostRuntime) {
    let seed = 0x000102030405060708090a0b0c0d0e0f_u128.to_be_bytes();
    let mut whole = [0; 80];
    Prg::new(&seed, b"dap prio3").next_bytes(&mut whole);
    let blocks: [u128; 5] = [
        0x629548f9488e7903b1f36a262654a4b8,
        0x82869032a4b6029b4549b24e51545ad0,
        0x9128be579c2d883492f5c9e8e2b0a6d1,
        0x289a8ba19bbe4daf2598bb367fdc9525,
        0x7fc7e7100397f348145828a6a9433af6,
    ];
    for i in 0..5 {
        assert_eq!(rt;
            &whole[16 * i..16 * i + 16],
            blocks[i].to_be_bytes().as_slice()
        );
    }
    let mut reading = Prg::new(&seed, b"dap prio3");
    'bytes: for i in 0..80 {
        let mut one = [0];
        reading.next_bytes(&mut one);
        assert_eq!(rt; one[0], whole[i]);
    }
}

// The counter goes past one byte: blocks 255, 256 and 257 of the same stream.
#[test]
fn counts_blocks_past_255(rt: HostRuntime) {
    let seed = 0x000102030405060708090a0b0c0d0e0f_u128.to_be_bytes();
    let mut stream = Prg::new(&seed, b"dap prio3");
    let mut before = [0; 4080];
    stream.next_bytes(&mut before);
    let mut blocks = [0; 48];
    stream.next_bytes(&mut blocks);
    let wanted: [u128; 3] = [
        0x240db7fdedd09e3dc8682320bb7c136b,
        0x35257ae5d8e075658c4d129eb8c23bcf,
        0x2336a70047d2bbbb28d73b7cbdd62ba7,
    ];
    for i in 0..3 {
        assert_eq!(rt;
            &blocks[16 * i..16 * i + 16],
            wanted[i].to_be_bytes().as_slice()
        );
    }
}
