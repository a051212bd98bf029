// The score of a word: the sum of its symbols' metrics.
ghost use Rattle.std.specs.Prelude.{◌≡◌, ℕ, ◌*◌, ◌<◌, ◌≤◌, length};
ghost use Rattle.lists.specs.Entry.{nth};
ghost use Rattle.words.specs.Linear.{sum_of};
ghost use Rattle.candidates.specs.GeneratorRows.{support};
ghost use Rattle.candidates.specs.Score.{score, score_after};

pub fn score(metrics: &[f32], word: &[u8]) -> f32
    requires { (length word.now * 32 ≤ length metrics.now) × (length word.now ≤ 256) × ((v : ℕ) → nth word.now v < 32) }
    ensures { result ≡ score metrics.now word.now }
{
    let mut sum = 0.0f32;
    for (v, x) in word.iter().enumerate() {
        sum = sum + metrics[v * 32 + *x as usize];
    }
    sum
}

// The word with g added, and its score by what changes from the score that it had. Only the positions where g is not 0 are gone over: they are few.
pub fn flip(metrics: &[f32], g: &[u8], places: &[u8], word: &mut [u8], before: f32) -> f32
    requires word_in_bounds { (length word.old * 32 ≤ length metrics.now) × (length g.now ≡ length word.old) × (length word.old ≤ 256) }
    requires by_index { ((v : ℕ) → nth word.old v < 32) × ((v : ℕ) → nth g.now v < 32) × (places.now ≡ support g.now) }
    ensures value { result ≡ score_after metrics.now g.now word.old before }
    ensures word_after { word.new ≡ sum_of word.old g.now }
{
    let mut score = before;
    for place in places {
        let v = *place as usize;
        let old = word[v];
        let new = old ^ g[v];
        word[v] = new;
        score = score + (metrics[v * 32 + new as usize] - metrics[v * 32 + old as usize]);
    }
    score
}
