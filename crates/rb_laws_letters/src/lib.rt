//! Laws of letters over the bus. Each law is the contract of a function that does nothing.
#![tactic(auto)]

ghost use Rattle.rb_laws_letters.specs.Laws.{GoodPortsReceiveAlike, GoodSendersAreReceived, LettersAreRead, LettersArrive, SendersSendTheirLetters, WordsGiveTheirLetters};

/// The words of a letter, if none is open before them, give this letter alone, and leave none open.
pub fn letters_are_read()
    ensures { LettersAreRead }
{}

/// Words that are, apart from any zeros among them, the first of some letters' words give the first
/// of these letters, each whole and once, and all of them if all their words are there.
pub fn words_give_their_letters()
    ensures { WordsGiveTheirLetters }
{}

/// Whatever is pushed and whenever it is asked for a word, a sender gives the words of the letters
/// that it has taken, in order, and zeros; all of them once nothing waits.
pub fn senders_send_their_letters()
    ensures { SendersSendTheirLetters }
{}

/// In every lawful scenario, whatever is handed in, the ports of good BIUs receive the same values
/// and letters of each sender, after each record.
pub fn good_ports_receive_alike()
    ensures { GoodPortsReceiveAlike }
{}

/// In every lawful scenario, whatever is handed in: if the sender is good, a good port receives the
/// words that it offers, each once and in order. If these are, apart from any zeros among them, the
/// first of some letters' words, it receives the first of these letters, each whole and once, and
/// all of them once all their words were delivered.
pub fn good_senders_are_received()
    ensures { GoodSendersAreReceived }
{}

/// Letters arrive: if the words that a good sender offers are what the calls to a sender of letters
/// gave, zeros among them, a good port receives the first of the letters that this sender had
/// taken, each whole and once, and all of them if none waits any more.
pub fn letters_arrive()
    ensures { LettersArrive }
{}
