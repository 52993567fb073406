//! Trial tasks.

ghost use Rattle.std.specs.Prelude.{◌≡◌, ◌≤◌, length, codes};
ghost use Rattle.vdaf_api.specs.TaskNumbers.{AreTaskNumbers, IsExpiry};
ghost use Rattle.dap_tasks.specs.Trial.{trial_key, leader_keys, helper_keys, trial_of};

use crate::task::Task;
use aes_block::Key;
use aes_cmac_prg::cmac;
use dap_bytes::Name;
use vdaf_api::{Kind, SealKeys};

/// How long the longest label is.
const MAX_LABEL: usize = 10;

/// The key of a label and a name.
fn trial_key(label: &[u8], name: &Name) -> [u8; 16]
    requires { length label.now ≤ 10 }
    ensures { result ≡ trial_key label.now name.now }
{
    let name = name.as_bytes();
    let start = label.len() + 1;
    let mut text = [0; MAX_LABEL + 1 + Name::MAX_LEN];
    text[..label.len()].copy_from_slice(label);
    text[start..start + name.len()].copy_from_slice(name);
    cmac(&Key::new([0; 16]), &text[..start + name.len()])
}

/// The trial task of a name: each of its keys is the tag (CMAC with AES-128, NIST SP 800-38B), under the key of zeros, of
/// the key's label, a zero byte and the name. It takes no memory.
pub fn trial(name: Name, kind: Kind, min: u32, precision: u32, expires: Option<u64>) -> Task
    requires numbers { AreTaskNumbers kind min precision }
    requires expiry { IsExpiry expires }
    ensures { result ≡ trial_of name kind min precision expires }
{
    let verify = trial_key(b"verify", &name);
    let leader = SealKeys {
        enc: trial_key(b"leader enc", &name),
        mac: trial_key(b"leader mac", &name),
    };
    let helper = SealKeys {
        enc: trial_key(b"helper enc", &name),
        mac: trial_key(b"helper mac", &name),
    };
    Task {
        name,
        kind,
        min,
        precision,
        expires,
        verify,
        leader,
        helper,
    }
}
