use crate::SmallField;
use aes_cmac_prg::{DrawFault, Prg};
use field_laws::Field;
use field64::Field64;
use field128::Field128;
use std::test::Fail;

const SEED: u128 = 0x000102030405060708090a0b0c0d0e0f;

// The values here are those of a plain second writing of the stream and the drawing.
#[test]
fn draws_from_where_the_stream_stands(rt: HostRuntime) -> Result<(), Fail> {
    let mut stream = Prg::new(&SEED.to_be_bytes(), b"dap prio3");
    let mut front = [0; 3];
    stream.next_bytes(&mut front);
    assert_eq!(rt; front, [0x62, 0x95, 0x48]);
    let none = stream.draw::<Field64>(rt.alloc(), 0)?;
    assert_eq!(rt; none.len(), 0);
    let pair = stream.draw::<Field64>(rt.alloc(), 2)?;
    assert_eq!(rt; pair.len(), 2);
    assert_eq!(rt; pair[0].value(), 0x6af3b103798e48f9);
    assert_eq!(rt; pair[1].value(), 0x908682b8a4542626);
    let wide = stream.draw::<Field128>(rt.alloc(), 1)?;
    assert_eq!(rt; wide.len(), 1);
    assert_eq!(rt; wide[0].value(), 0x0be2891d05a54514eb249459b02b6a432);
    let mut back = [0; 4];
    stream.next_bytes(&mut back);
    assert_eq!(rt; back, [0x57, 0x9c, 0x2d, 0x88]);
    Ok(())
}

// Under seed 20 the sixth number below the modulus comes after exactly 128 others, so the elements
// are those; under seed 131 it comes after 129, of which the last ends the drawing.
#[test]
fn skips_128_numbers_and_no_more(rt: HostRuntime) -> Result<(), Fail> {
    let mut stream = Prg::new(&20u128.to_be_bytes(), b"");
    let elements = stream.draw::<SmallField>(rt.alloc(), 6)?;
    let numbers: [u128; 6] = [570011, 99391, 698815, 94456, 404913, 650592];
    assert_eq!(rt; elements.len(), 6);
    for i in 0..6 {
        assert_eq!(rt; elements[i].value(), numbers[i]);
    }
    let mut next = [0; 4];
    stream.next_bytes(&mut next);
    assert_eq!(rt; next, [0x8f, 0xdd, 0xe5, 0x5c]);

    let mut spent = Prg::new(&131u128.to_be_bytes(), b"");
    assert!(rt;
        matches!(
            spent.draw::<SmallField>(rt.alloc(), 6),
            Err(DrawFault::Spent)
        )
    );
    spent.next_bytes(&mut next);
    assert_eq!(rt; next, [0xc0, 0xd5, 0x07, 0x45]);
    Ok(())
}
