// Worked lines of the format as tests of the reader: the smallest block, each fault at its edge, and foundings.
// Blocks are put together byte by byte, without the reader's own definitions.
#![tactic(auto)]

use std::alloc::{AllocError, Global};

// A begin of height 1 on the digest of zeros, and eight prices of 1: 85 bytes.
fn opening(heap: Global) -> Result<Vec<u8>, AllocError> {
    let mut block = Vec::new(heap);
    block.extend_from_slice(b"B\x00\x00\x00\x01")?;
    block.extend_from_slice(&[0; 32])?;
    for asset in 0..8u8 {
        block.extend_from_slice(&[b'P', asset, 0, 0, 0, 1])?;
    }
    Ok(block)
}

fn volume(block: &mut Vec<u8>, sold: u8, bought: u8, amount: u64) -> Result<(), AllocError> {
    block.extend_from_slice(&[b'V', sold, bought])?;
    block.extend_from_slice(&amount.to_be_bytes())
}

fn pay(block: &mut Vec<u8>, source: u32, sequence: u32, amount: u64) -> Result<(), AllocError> {
    block.push(b'T')?;
    block.extend_from_slice(&source.to_be_bytes())?;
    block.extend_from_slice(&sequence.to_be_bytes())?;
    block.extend_from_slice(&2u32.to_be_bytes())?;
    block.push(0)?;
    block.extend_from_slice(&amount.to_be_bytes())?;
    block.extend_from_slice(b"sixteen letters.")
}

fn offer(block: &mut Vec<u8>, sold: u8, bought: u8, limit: u32) -> Result<(), AllocError> {
    block.extend_from_slice(b"O\x00\x00\x00\x01\x00\x00\x00\x01")?;
    block.extend_from_slice(&[sold, bought])?;
    block.extend_from_slice(&limit.to_be_bytes())?;
    block.extend_from_slice(&40u64.to_be_bytes())
}

fn grant(founding: &mut Vec<u8>, account: u32, balance: u64) -> Result<(), AllocError> {
    founding.push(b'G')?;
    founding.extend_from_slice(&account.to_be_bytes())?;
    for _ in 0..8 {
        founding.extend_from_slice(&balance.to_be_bytes())?;
    }
    Ok(())
}

#[cfg(test)]
mod tests {
    use super::*;
    use blocks::{read_block, read_founding};
    use commands::{Command, length, read};
    use std::test::Fail;
    use terms::Fault;

    // What reading so many bytes gave: the fault's number and first place; 0 and the length where they are readable.
    fn seen<T: Drop>(reading: Result<T, Fault>, length: usize) -> (u8, u64) {
        match reading {
            Ok(_) => (0, length as u64),
            Err(fault) => (fault.number, fault.first),
        }
    }

    fn block_fault(block: &Vec<u8>) -> (u8, u64) {
        seen(read_block(block.as_slice()), block.len())
    }

    fn founding_fault(founding: &Vec<u8>) -> (u8, u64) {
        seen(read_founding(founding.as_slice()), founding.len())
    }

    #[test]
    fn smallest(rt: HostRuntime) -> Result<(), Fail> {
        let mut block = opening(rt.alloc())?;
        assert_eq!(rt; block_fault(&block), (2, 85), "without its end");
        block.push(b'E')?;
        assert_eq!(rt; block_fault(&block), (0, 86), "the smallest block");
        assert_eq!(rt; length(block.as_slice()).ok(), Some(86));
        block.push(b'E')?;
        assert_eq!(rt; block_fault(&block), (7, 86), "a byte after the end");
        Ok(())
    }

    #[test]
    fn cut_anywhere(rt: HostRuntime) -> Result<(), Fail> {
        let block = opening(rt.alloc())?;
        assert_eq!(rt; read_block(b"").err().is_some(), true);
        let mut short = Vec::new(rt.alloc());
        for byte in block.iter() {
            let expected = if short.len() < 37 {
                0
            } else {
                short.len() as u64 - (short.len() as u64 - 37) % 6
            };
            assert_eq!(rt; block_fault(&short), (2, expected));
            short.push(*byte)?;
        }
        Ok(())
    }

    #[test]
    fn prices(rt: HostRuntime) -> Result<(), Fail> {
        let mut block = Vec::new(rt.alloc());
        block.extend_from_slice(b"B\x00\x00\x00\x01")?;
        block.extend_from_slice(&[0; 32])?;
        for (price, fault, case) in [
            ([1, 0, 0, 0, 1], (4, 37), "asset 1 before asset 0"),
            (
                [9, 0, 0, 0, 0],
                (4, 37),
                "out of turn comes before out of range",
            ),
            ([0, 0, 0, 0, 0], (5, 37), "price 0"),
            ([0, 0x01, 0, 0, 0], (5, 37), "price 16,777,216"),
            ([0, 0, 0xff, 0xff, 0xff], (2, 43), "price 16,777,215"),
        ] {
            block.truncate(37);
            block.push(b'P')?;
            block.extend_from_slice(&price)?;
            assert_eq!(rt; block_fault(&block), fault, "{case}");
        }
        Ok(())
    }

    #[test]
    fn volumes(rt: HostRuntime) -> Result<(), Fail> {
        let mut block = opening(rt.alloc())?;
        volume(&mut block, 0, 1, 100)?;
        volume(&mut block, 1, 0, 68_719_476_735)?;
        assert_eq!(rt; block_fault(&block), (2, 107), "rising pairs");
        for (sold, bought, amount, fault, case) in [
            (1, 0, 5, (4, 107), "a pair that does not rise"),
            (3, 3, 5, (5, 107), "sold for itself"),
            (1, 9, 5, (5, 107), "a rising pair with an asset above 7"),
            (2, 0, 0, (5, 107), "amount 0"),
            (2, 0, 68_719_476_736, (5, 107), "amount 68,719,476,736"),
        ] {
            block.truncate(107);
            volume(&mut block, sold, bought, amount)?;
            assert_eq!(rt; block_fault(&block), fault, "{case}");
        }
        Ok(())
    }

    #[test]
    fn transactions(rt: HostRuntime) -> Result<(), Fail> {
        let mut block = opening(rt.alloc())?;
        pay(&mut block, 1, 1, 600)?;
        offer(&mut block, 0, 1, 98_304)?;
        assert_eq!(rt; block_fault(&block), (2, 146), "a payment and an offer");
        volume(&mut block, 0, 1, 100)?;
        assert_eq!(rt;
            block_fault(&block),
            (4, 146),
            "a volume after a transaction"
        );
        block.truncate(146);
        pay(&mut block, 0, 1, 600)?;
        assert_eq!(rt; block_fault(&block), (5, 146), "account 0");
        block.truncate(146);
        offer(&mut block, 2, 2, 1)?;
        assert_eq!(rt; block_fault(&block), (5, 146), "sold for itself");
        block.truncate(146);
        offer(&mut block, 2, 3, 0)?;
        assert_eq!(rt; block_fault(&block), (5, 146), "limit 0");
        block.truncate(146);
        block.push(b'X')?;
        assert_eq!(rt; block_fault(&block), (3, 146), "no letter of a command");
        Ok(())
    }

    #[test]
    fn full(rt: HostRuntime) -> Result<(), Fail> {
        let mut block = opening(rt.alloc())?;
        for n in 0..1024u32 {
            pay(&mut block, 1, n, 1)?;
        }
        block.push(b'E')?;
        assert_eq!(rt; block_fault(&block), (0, 38_998), "1,024 transactions");
        block.truncate(38_997);
        pay(&mut block, 1, 1024, 0)?;
        assert_eq!(rt;
            block_fault(&block),
            (5, 38_997),
            "transaction 1,025, out of range"
        );
        block.truncate(38_997);
        pay(&mut block, 1, 1024, 1)?;
        assert_eq!(rt; block_fault(&block), (6, 38_997), "transaction 1,025");
        for _ in 0..965 {
            block.push(b'E')?;
        }
        assert_eq!(rt; block_fault(&block), (6, 38_997), "40,000 bytes");
        block.push(b'E')?;
        assert_eq!(rt; block_fault(&block), (1, 0), "40,001 bytes");
        Ok(())
    }

    #[test]
    fn foundings(rt: HostRuntime) -> Result<(), Fail> {
        let mut founding = Vec::new(rt.alloc());
        assert_eq!(rt; founding_fault(&founding), (2, 0), "no bytes");
        grant(&mut founding, 3, 68_719_476_735)?;
        grant(&mut founding, 1, 0)?;
        founding.push(b'E')?;
        assert_eq!(rt; founding_fault(&founding), (0, 139), "two grants");
        assert_eq!(rt; block_fault(&founding), (4, 0), "a founding is no block");
        founding.truncate(138);
        grant(&mut founding, 2, 68_719_476_736)?;
        assert_eq!(rt; founding_fault(&founding), (5, 138), "a balance too large");
        founding.truncate(138);
        grant(&mut founding, 0, 1)?;
        assert_eq!(rt; founding_fault(&founding), (5, 138), "account 0");
        Ok(())
    }

    #[test]
    fn memo(rt: HostRuntime) -> Result<(), Fail> {
        let mut block = opening(rt.alloc())?;
        pay(&mut block, 7, 8, 9)?;
        assert_eq!(rt;
            read(block.as_slice(), 86).err().is_some(),
            true,
            "no letter at the next byte"
        );
        let reading = read(block.as_slice(), 85)?;
        assert_eq!(rt; reading.next, 123);
        match reading.command {
            Command::Pay {
                source,
                sequence,
                receiver,
                asset,
                amount,
                memo,
            } => {
                assert_eq!(rt;
                    (source, sequence, receiver, asset, amount),
                    (7, 8, 2, 0, 9)
                );
                assert!(rt; memo == b"sixteen letters.");
                Ok(())
            }
            _ => Err(Fail::new("no payment")),
        }
    }
}
