//! The digests of texts, and their names in hex.
ghost use Rattle.std.specs.Prelude.{◌≡◌, ◌↔◌, Ok, length, IfSome, IsSome};
ghost use Rattle.std.specs.List.{AllPass};
ghost use Rattle.sha1.specs.Sha1.{sha1};
ghost use Rattle.hex.specs.Hex.{decode_of, encode_lower, is_hex_digit};

use hex::{FromHex, encode_to_slice};
use program_registry::Digest;
use sha1::{DIGEST_LEN, Sha1};

/// The bytes of a digest's name.
pub const NAME_LEN: usize = 40;

/// Returns the SHA-1 of the text. Takes no memory.
pub fn digest_of(text: &[u8]) -> Digest
    ensures { result.bytes ≡ sha1 text.now }
{
    Digest {
        bytes: Sha1::digest(text),
    }
}

/// Returns the digest with this name: 40 hexadecimal digits of either case. Takes no memory.
pub fn digest_in(word: &[u8]) -> Option<Digest>
    ensures value { IfSome result (λ digest. decode_of word.now ≡ Ok digest.bytes) }
    ensures found { IsSome result ↔ ((length word.now ≡ 40) × AllPass is_hex_digit word.now) }
{
    match <[u8; DIGEST_LEN] as FromHex>::from_hex(word) {
        Ok(bytes) => Some(Digest { bytes }),
        Err(_) => None,
    }
}

/// Returns the digest's name, in lower case. Takes no memory.
pub fn hex_of(digest: &Digest) -> [u8; NAME_LEN]
    ensures { result ≡ encode_lower digest.now.bytes }
{
    let mut name = [0; NAME_LEN];
    encode_to_slice(digest.bytes, &mut name).unwrap();
    name
}
