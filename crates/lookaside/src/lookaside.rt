// A lookaside: a table of answers over any source.
ghost use Rattle.lookaside.specs.Layers.{layer_shows, LayerHolds, LayerAfterAsk, LayerAfterPurge, shown_held};

use crate::table::Table;
use arch::condition::Condition;
use lookup::kind::Kind;
use lookup::source::Source;
use lookup::trace::Trace;
use storage::storage::Storage;

// A table and the source beneath it, which is asked where the table has no answer.
#[derive(Drop)]
pub struct Lookaside<T, B> {
    pub table: T,
    pub beneath: B,
}

impl<K: Kind, T: Table, B: Source<K>> Source<K> for Lookaside<T, B> {
    ghost shows = { λ s k. layer_shows K.Kind T.Table B.Source s k };

    ghost holds = { λ s k a. LayerHolds K.Kind T.Table B.Source s k a };

    ghost after_ask = { λ s fresh k t. LayerAfterAsk K.Kind T.Table B.Source s fresh k t };

    ghost after_purge = { λ s t. LayerAfterPurge K.Kind T.Table B.Source s t };

    ghost shown_is_held = { λ s k a e. shown_held
        K.answer_of (T.finds s.table (K.key_words k)) (B.shows s.beneath k)
        (T.has_pair s.table (K.key_words k)) (B.holds s.beneath k)
        (λ w f. T.found_is_in_a_row s.table (K.key_words k) w f)
        (λ b f. B.shown_is_held s.beneath k b f) a e };

    fn ask<S: Storage, R: Trace>(
        &mut self,
        storage: &S,
        key: K::Key,
        trace: &mut R,
    ) -> Result<K::Answer, Condition> {
        let words = K::spell(key);
        if let Some(answer) = self.table.find(words) {
            return Ok(K::read(answer));
        }
        let answer = self.beneath.ask(storage, key, trace)?;
        self.table.note(words, K::write(answer));
        Ok(answer)
    }

    fn purge(&mut self) {
        self.table.clear();
        self.beneath.purge();
    }
}
