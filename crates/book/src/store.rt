// The book. It owns all its memory from set-up on.
ghost use Rattle.std.specs.Prelude.{◌≤◌, vec_len};

use crate::places::Places;
use crate::site::Site;

#[derive(Drop)]
pub struct Book {
    pub(crate) sites: Vec<Site>,
    pub(crate) parties: u8,
    pub(crate) days: u8,
    pub(crate) situations: Places,
    pub(crate) indexes: Places,
    ghost horizon: { days ≤ 35 },
    ghost parties_bound: { parties ≤ 16 },
    ghost sites_bound: { vec_len sites ≤ 256 },
    ghost situations_bound: { situations.most ≤ 1024 },
    ghost indexes_bound: { indexes.most ≤ 8192 },
}
