//! SHA-256 and HMAC-SHA-256, over slices of bytes, without memory of their own.
#![tactic(auto)]

mod block;
mod constants;
mod equal;
mod hash;
mod hmac;
mod schedule;
mod state;
mod words;

pub use equal::same;
pub use hash::{sha256, sha256_stands};
pub use hmac::{hmac_sha256, hmac_stands};

// The examples of FIPS 180-4, the test cases of RFC 4231, and two hashes that differ in a bit.
#[cfg(test)]
mod tests {
    use super::*;
    use std::alloc::{AllocError, Global};
    use std::fmt::Write;
    use std::test::Fail;

    // The hash as text, as the standards print it.
    fn hex(alloc: Global, digest: [u8; 32]) -> Result<String, AllocError> {
        let mut text = String::new(alloc);
        for byte in digest {
            write!(text, "{byte:02x}")?;
        }
        Ok(text)
    }

    #[test]
    fn fips_180_4(rt: HostRuntime) -> Result<(), Fail> {
        assert!(rt;
            hex(rt.alloc(), sha256(b""))?.as_str()
                == "e3b0c44298fc1c149afbf4c8996fb92427ae41e4649b934ca495991b7852b855"
        );
        assert!(rt;
            hex(rt.alloc(), sha256(b"abc"))?.as_str()
                == "ba7816bf8f01cfea414140de5dae2223b00361a396177a9cb410ff61f20015ad"
        );
        let two = b"abcdbcdecdefdefgefghfghighijhijkijkljklmklmnlmnomnopnopq";
        assert!(rt;
            hex(rt.alloc(), sha256(two))?.as_str()
                == "248d6a61d20638b8e5c026930c3e6039a33ce45964ff2167f6ecedd419db06c1"
        );
        let long =
            b"abcdefghbcdefghicdefghijdefghijkefghijklfghijklmghijklmnhijklmnoijklmnopjklmnopqklmnopqrlmnopqrsmnopqrstnopqrstu";
        assert!(rt;
            hex(rt.alloc(), sha256(long))?.as_str()
                == "cf5b16a778af8380036ce59e7b0492370b249b11e8f07a51afac45037afee9d1"
        );
        Ok(())
    }

    #[test]
    fn rfc_4231(rt: HostRuntime) -> Result<(), Fail> {
        let first = hmac_sha256(&[0x0b; 20], b"Hi There");
        assert!(rt;
            hex(rt.alloc(), first)?.as_str()
                == "b0344c61d8db38535ca8afceaf0bf12b881dc200c9833da726e9376c2e32cff7"
        );
        let second = hmac_sha256(b"Jefe", b"what do ya want for nothing?");
        assert!(rt;
            hex(rt.alloc(), second)?.as_str()
                == "5bdcc146bf60754e6a042426089575c75a003f089d2739839dec58b964ec3843"
        );
        let third = hmac_sha256(&[0xaa; 20], &[0xdd; 50]);
        assert!(rt;
            hex(rt.alloc(), third)?.as_str()
                == "773ea91e36800e46854db8ebd09181a72959098b3ef8c122d9635514ced565fe"
        );
        let counting =
            b"\x01\x02\x03\x04\x05\x06\x07\x08\x09\x0a\x0b\x0c\x0d\x0e\x0f\x10\x11\x12\x13\x14\x15\x16\x17\x18\x19";
        let fourth = hmac_sha256(counting, &[0xcd; 50]);
        assert!(rt;
            hex(rt.alloc(), fourth)?.as_str()
                == "82558a389a443c0ea4cc819899f2083a85f0faa3e578f8077a2e3ff46729665b"
        );
        Ok(())
    }

    #[test]
    fn rfc_4231_long_keys(rt: HostRuntime) -> Result<(), Fail> {
        let sixth = hmac_sha256(
            &[0xaa; 131],
            b"Test Using Larger Than Block-Size Key - Hash Key First",
        );
        assert!(rt;
            hex(rt.alloc(), sixth)?.as_str()
                == "60e431591ee0b67f0d8a26aacbf5b77f8e0bc6213728c5140546040f0ee37f54"
        );
        let text =
            b"This is a test using a larger than block-size key and a larger than block-size data. The key needs to be hashed before being used by the HMAC algorithm.";
        let seventh = hmac_sha256(&[0xaa; 131], text);
        assert!(rt;
            hex(rt.alloc(), seventh)?.as_str()
                == "9b09ffa71b942fcb27635fbcd5b0e944bfdc63644f0713938a7f51535c3a35e2"
        );
        Ok(())
    }

    #[test]
    fn same_sees_the_last_bit(rt: HostRuntime) {
        let a = sha256(b"abc");
        let mut b = a;
        assert!(rt; same(&a, &b));
        b[31] ^= 1;
        assert!(rt; !same(&a, &b));
    }
}
