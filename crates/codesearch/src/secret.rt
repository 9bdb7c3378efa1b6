// The secret of a user, from which the key of the user's states is made.
//
// It is a file of random bytes in the folder for caches, which is the user's own, and nobody else
// may read or write it. Where there is none, no state counts, and the run that makes a first state
// makes one.

use crate::own_tree::user_of;
use crate::state_folder::{is_free, own_item};
use cs_state::StateKey;
use std::alloc::{AllocError, Global};
use std::fs::{self, DirBuilder, File};
use std::io::{self, Read, Write};
use std::os::unix::fs::{DirBuilderExt, MetadataExt, OpenOptionsExt};
use std::random::RandomSource;

/// The number of its bytes.
const SECRET_LEN: usize = 32;

/// The mode of the file.
const PRIVATE: u32 = 0o600;

/// The mode of the folder.
const PRIVATE_FOLDER: u32 = 0o700;

/// The rights of others.
const OTHERS: u32 = 0o077;

/// Where the secret is kept.
#[derive(Drop)]
pub(crate) struct SecretFile {
    folder: String,
    file: String,
    temp: String,
}

impl SecretFile {
    /// The place below the folder for caches.
    pub(crate) fn below(alloc: Global, cache: &str) -> Result<SecretFile, AllocError> {
        Ok(SecretFile {
            folder: format!(in alloc; "{cache}/codesearch")?,
            file: format!(in alloc; "{cache}/codesearch/key")?,
            temp: format!(in alloc; "{cache}/codesearch/key~")?,
        })
    }

    /// The key of the secret, if there is one that counts.
    pub(crate) fn key(&self, rt: &HostRuntime) -> Option<StateKey> {
        let user = user_of(rt)?;
        let file = self.file.as_str();
        if !is_free(rt, self.folder.as_str(), user) {
            return None;
        }
        let there = own_item(rt, file, user)?;
        if !there.is_file() || there.mode() & OTHERS != 0 || there.len() != SECRET_LEN as u64 {
            return None;
        }
        let mut secret = [0; SECRET_LEN];
        fs::open(rt, file).ok()?.read_exact(&mut secret).ok()?;
        Some(StateKey::new(&secret))
    }

    /// The key of the secret, which is made if there is none that counts.
    pub(crate) fn made_key(&self, rt: &HostRuntime) -> Option<StateKey> {
        if let Some(key) = self.key(rt) {
            return Some(key);
        }
        let user = user_of(rt)?;
        let mut maker = DirBuilder::new();
        maker.recursive(true);
        maker.mode(PRIVATE_FOLDER);
        let _ = maker.create(rt, self.folder.as_str());
        if !is_free(rt, self.folder.as_str(), user) {
            return None;
        }
        self.write(rt).ok()?;
        self.key(rt)
    }

    /// Writes a secret beside its file, and renames it.
    fn write(&self, rt: &HostRuntime) -> io::Result<()> {
        let mut secret = [0; SECRET_LEN];
        rt.fill_bytes(&mut secret)?;
        let temp = self.temp.as_str();
        // A killed run may have left one.
        let _ = fs::remove_file(rt, temp);
        let mut made = File::options()
            .append(true)
            .create_new(true)
            .mode(PRIVATE)
            .open(rt, temp)?;
        made.write_all(&secret)?;
        made.sync_all()?;
        fs::rename(rt, temp, self.file.as_str())
    }
}
