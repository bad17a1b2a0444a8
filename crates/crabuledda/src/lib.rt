// The C boundary (host/crabuledda.h): numbers pass as themselves, a slice as a pointer and then a length. The parameters are written out,
// twice the same ones, as C declares them.

#![tactic(auto)]

ghost use Rattle.crabuledda.specs.Promises.{CrabuleddaHashPromise, CrabuleddaFillMemoryPromise, CrabuleddaLongPromise};
ghost use Rattle.params.specs.Limits.{from_numbers};

use answer::number;
use argon2::{fill_memory, hash_password_into_with_memory};
use blake2b_long::blake2b_long;
use params::{Inputs, Params};

// The whole hash; the answer's number. A configured length of 0 stands for none.
#[unsafe(no_mangle)]
pub extern "C" fn crabuledda_hash(
    algorithm: u32,
    version: u32,
    memory: u32,
    passes: u32,
    lanes: u32,
    configured: u32,
    password: &[u8],
    salt: &[u8],
    secret: &[u8],
    ad: &[u8],
    words: &mut [u64],
    out: &mut [u8],
) -> u32
    ensures { CrabuleddaHashPromise (from_numbers algorithm version memory passes lanes configured) password.now salt.now
        secret.now ad.now words.old out.old result words.new out.new }
{
    let params = Params::from_numbers(algorithm, version, memory, passes, lanes, configured);
    let inputs = Inputs {
        password,
        salt,
        secret,
        ad,
    };
    number(hash_password_into_with_memory(params, inputs, words, out))
}

// The filling alone; the answer's number. A configured length of 0 stands for none.
#[unsafe(no_mangle)]
pub extern "C" fn crabuledda_fill_memory(
    algorithm: u32,
    version: u32,
    memory: u32,
    passes: u32,
    lanes: u32,
    configured: u32,
    password: &[u8],
    salt: &[u8],
    secret: &[u8],
    ad: &[u8],
    words: &mut [u64],
) -> u32
    ensures { CrabuleddaFillMemoryPromise (from_numbers algorithm version memory passes lanes configured) password.now salt.now
        secret.now ad.now words.old result words.new }
{
    let params = Params::from_numbers(algorithm, version, memory, passes, lanes, configured);
    let inputs = Inputs {
        password,
        salt,
        secret,
        ad,
    };
    number(fill_memory(params, inputs, words))
}

// The variable-length hash, of as many bytes as out has; the answer's number.
#[unsafe(no_mangle)]
pub extern "C" fn crabuledda_blake2b_long(input: &[u8], out: &mut [u8]) -> u32
    ensures { CrabuleddaLongPromise input.now out.old result out.new }
{
    number(blake2b_long(input, out))
}
