//! A cache may be sent to the worker that it serves.
use crate::ManifestCache;
use pack_util::is_sent;

fn is_cache_sent(cache: &ManifestCache) {
    is_sent_by(cache);
}

fn is_sent_by<T: Send>(value: &T) {
    is_sent(value);
}
