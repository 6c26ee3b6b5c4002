// Driving the verifier along a transcript whose words lie side by side.
// The same steps are driven when answers and coins come one by one.
ghost use Rattle.std.specs.Prelude.{◌≡◌, ◌+◌, ◌*◌, ◌<◌, true, false, length, MatchResult};
ghost use Rattle.arithmetic.specs.Numbers.{all_reduced};
ghost use Rattle.circuits.specs.Words.{modulus};
ghost use Rattle.argument.specs.Transcript.{fours};
ghost use Rattle.verdicts.specs.Machine.{variables_of, doubt, fits, next, settled, resume};
ghost use Rattle.claims.specs.Meaning.{numbers as field};
ghost use Rattle.judging.specs.Driving.{Leads, Ends, AtVariable, Below, layer_answers, answers_from, words_from, coins_from};
ghost use Rattle.verifier.specs.Meaning.{stand_of, inputs_of};

use verdicts::verdict::Verdict;
use verifier::verifier::Verifier;

// One answer and its coin.
fn hear(verifier: &mut Verifier, said: &[u32], word: u32) -> Result<(), Verdict>
    requires some { 0 < length (stand_of verifier.old).layers }
    requires word { word < modulus }
    ensures step { MatchResult result (λ _. (fits field (stand_of verifier.old) said.now ≡ true) × (stand_of verifier.new ≡ next field (stand_of verifier.old) said.now word)) (λ v. (fits field (stand_of verifier.old) said.now ≡ false) × (v ≡ doubt (stand_of verifier.old))) }
    ensures inputs { inputs_of verifier.new ≡ inputs_of verifier.old }
{
    let answer = verifier.read(said)?;
    let Ok(coin) = answer.coin(word) else {
        unreachable()
    };
    verifier.step(coin);
    Ok(())
}

// The answers and coins of a layer's variables.
fn hear_variables(verifier: &mut Verifier, said: &[u32], coins: &[u32]) -> Result<(), Verdict>
    requires some { 0 < length (stand_of verifier.old).layers }
    requires fresh { length (stand_of verifier.old).point ≡ 0 }
    requires counts { (length coins.now ≡ variables_of (stand_of verifier.old)) × (length said.now ≡ 4 * length coins.now) }
    requires coins { all_reduced field coins.now ≡ true }
    ensures heard { MatchResult result (λ _. Leads (inputs_of verifier.old) (stand_of verifier.old) (fours (length coins.now) said.now) coins.now (stand_of verifier.new) × AtVariable (stand_of verifier.old) (stand_of verifier.new) (length coins.now)) (λ v. Ends (inputs_of verifier.old) (stand_of verifier.old) (fours (length coins.now) said.now) coins.now v) }
    ensures inputs { inputs_of verifier.new ≡ inputs_of verifier.old }
{
    for (four, coin) in said.chunks_exact(4).zip(coins) {
        hear(verifier, four, *coin)?;
    }
    Ok(())
}

// All answers and coins of a layer: those of its variables, and the two values.
fn hear_layer(verifier: &mut Verifier, said: &[u32], coins: &[u32]) -> Result<(), Verdict>
    requires some { 0 < length (stand_of verifier.old).layers }
    requires fresh { length (stand_of verifier.old).point ≡ 0 }
    requires counts { (length coins.now ≡ variables_of (stand_of verifier.old) + 1) × (length said.now ≡ 4 * variables_of (stand_of verifier.old) + 2) }
    requires coins { all_reduced field coins.now ≡ true }
    ensures heard { MatchResult result (λ _. Leads (inputs_of verifier.old) (stand_of verifier.old) (layer_answers (stand_of verifier.old) said.now) coins.now (stand_of verifier.new) × Below (stand_of verifier.old) (stand_of verifier.new)) (λ v. Ends (inputs_of verifier.old) (stand_of verifier.old) (layer_answers (stand_of verifier.old) said.now) coins.now v) }
    ensures inputs { inputs_of verifier.new ≡ inputs_of verifier.old }
{
    let variables = verifier.variables();
    let (rounds, values) = said.split_at(4 * variables);
    hear_variables(verifier, rounds, &coins[0..variables])?;
    hear(verifier, values, coins[variables])
}

// Layer by layer down to the inputs.
fn hear_layers(verifier: &mut Verifier, messages: &[u32], coins: &[u32]) -> Result<(), Verdict>
    requires fresh { length (stand_of verifier.old).point ≡ 0 }
    requires counts { (length messages.now ≡ words_from (stand_of verifier.old)) × (length coins.now ≡ coins_from (stand_of verifier.old)) }
    requires coins { all_reduced field coins.now ≡ true }
    ensures heard { MatchResult result (λ _. (length (stand_of verifier.new).layers ≡ 0) × (resume field (inputs_of verifier.old) (stand_of verifier.old) (answers_from (stand_of verifier.old) messages.now) coins.now ≡ settled field (inputs_of verifier.old) (stand_of verifier.new))) (λ v. resume field (inputs_of verifier.old) (stand_of verifier.old) (answers_from (stand_of verifier.old) messages.now) coins.now ≡ v) }
    ensures inputs { inputs_of verifier.new ≡ inputs_of verifier.old }
{
    let mut said = messages;
    let mut drawn = coins;
    while !verifier.at_inputs() {
        let variables = verifier.variables();
        let (layer_said, said_below) = said.split_at(4 * variables + 2);
        let (layer_drawn, drawn_below) = drawn.split_at(variables + 1);
        hear_layer(verifier, layer_said, layer_drawn)?;
        said = said_below;
        drawn = drawn_below;
    }
    Ok(())
}

// The verdict over the rest of a transcript, from where the verifier stands.
pub fn hear_all(verifier: &mut Verifier, messages: &[u32], coins: &[u32]) -> Verdict
    requires fresh { length (stand_of verifier.old).point ≡ 0 }
    requires counts { (length messages.now ≡ words_from (stand_of verifier.old)) × (length coins.now ≡ coins_from (stand_of verifier.old)) }
    requires coins { all_reduced field coins.now ≡ true }
    ensures { result ≡ resume field (inputs_of verifier.old) (stand_of verifier.old) (answers_from (stand_of verifier.old) messages.now) coins.now }
{
    match hear_layers(verifier, messages, coins) {
        Ok(()) => verifier.settle(),
        Err(verdict) => verdict,
    }
}
