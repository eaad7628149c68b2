// A32 loads and stores: encoded.

ghost use Rattle.encode_calls.specs.Calls.{EncodedWord};

// The word that the fields make.
#[unsafe(no_mangle)]
pub extern "C" fn knucklepin_a32_encode(access: &[u32; 16], word: &mut u32) -> u32
    ensures { EncodedWord access.now result word.new }
{
    encode_calls::knucklepin_a32_encode(access, word)
}
