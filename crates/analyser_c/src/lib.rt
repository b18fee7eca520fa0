// The analyser for C: the static library whose header is include/lainukesk.h.
#![tactic(auto)]

ghost use Rattle.std.specs.Prelude.{◌≡◌};
ghost use Rattle.reader.specs.States.{parse};
ghost use Rattle.analyser.specs.Calls.{list_of, list_written, packed};

// List for C, which writes what `analyser::list` writes: the count, or the refusal as one number. The layout of the arguments is in
// include/lainukesk.h.
#[unsafe(no_mangle)]
pub extern "C" fn lainukesk_list(text: &[u8], out: &mut [u8]) -> u64
    ensures answers { result ≡ packed (list_of (parse text.now) out.old) }
    ensures writes { out.new ≡ list_written (parse text.now) out.old }
{
    analyser::packed_count(analyser::list(text, out))
}
