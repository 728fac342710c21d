//! How the words of objects, headers, waits and classes are packed into 64 bits.

ghost use Rattle.std.specs.Prelude.{◌≡◌, ◌+◌, ◌*◌, ◌/◌, ◌%◌, ◌^◌, ◌<◌, MatchOption};
ghost use Rattle.heap_words.specs.Words.{pack_tag, tag_section, tag_level, pack, value_of, tag_of, pack_header, header_class, header_length, wait_word, wait_object, wait_state, wait_word_of, SaysOfWait, class_state, class_thread, class_word_of, SaysOfClass};

/// In which section a word was written, and how deep in it.
#[derive(Clone, Copy)]
pub struct Tag {
    /// The number of the section, or 0.
    pub section: u32,
    /// How many of its levels were open, or 0.
    pub level: u8,
}

impl Tag {
    /// The tag that says this, with the 24 low bits of the section's number.
    #[tactic(auto, unfolding(crate::specs::Words::pack_tag))]
    pub fn pack(self) -> u32
        ensures { result ≡ pack_tag self.section self.level }
    {
        self.section % 0x100_0000 + self.level as u32 * 0x100_0000
    }

    /// What a tag says.
    #[tactic(auto, unfolding(crate::specs::Words::tag_section, crate::specs::Words::tag_level))]
    pub fn unpack(tag: u32) -> Tag
        ensures { result ≡ record { section = tag_section tag; level = tag_level tag } }
    {
        Tag {
            section: tag % 0x100_0000,
            level: (tag / 0x100_0000) as u8,
        }
    }
}

/// A word of an object: a field, a static field or an array element, or half of one that is long.
#[derive(Clone, Copy)]
pub struct HeapWord {
    /// The value that Java code reads.
    pub value: u32,
    /// In which section the value was written, and how deep in it ([`Tag`]), or 0 where it was written in none.
    pub tag: u32,
}

impl HeapWord {
    /// The word that says this.
    #[tactic(auto, unfolding(crate::specs::Words::pack))]
    pub fn pack(self) -> u64
        ensures { result ≡ pack self.value self.tag }
    {
        joined(self.value, self.tag)
    }

    /// What a word says.
    #[tactic(auto, unfolding(crate::specs::Words::value_of, crate::specs::Words::tag_of))]
    pub fn unpack(word: u64) -> HeapWord
        ensures { result ≡ record { value = value_of word; tag = tag_of word } }
    {
        HeapWord {
            value: low_half(word),
            tag: high_half(word),
        }
    }
}

/// The word at an object's reference.
#[derive(Clone, Copy)]
pub struct Header {
    /// The number of the object's class.
    pub class: u32,
    /// An array's length, 0 for an object that is no array.
    pub length: u32,
}

impl Header {
    /// The word that says this.
    #[tactic(auto, unfolding(crate::specs::Words::pack_header))]
    pub fn pack(self) -> u64
        ensures { result ≡ pack_header self.class self.length }
    {
        joined(self.class, self.length)
    }

    /// What a word says.
    #[tactic(auto, unfolding(crate::specs::Words::header_class, crate::specs::Words::header_length))]
    pub fn unpack(word: u64) -> Header
        ensures { result ≡ record { class = header_class word; length = header_length word } }
    {
        Header {
            class: low_half(word),
            length: high_half(word),
        }
    }
}

/// Whether a thread waits in the wait set of an object (JLS 17.2). The word of a thread that was notified stays as it
/// is once the thread has its monitor back.
#[derive(Clone, Copy)]
pub enum WaitWord {
    /// It never waited.
    Awake,
    /// It waits in the wait set of this object.
    Waiting(u32),
    /// It was taken out of the wait set of this object.
    Notified(u32),
}

impl WaitWord {
    /// The word that says this.
    #[tactic(auto, unfolding(crate::specs::Words::wait_word))]
    pub fn pack(self) -> u64
        ensures { result ≡ wait_word_of self }
    {
        match self {
            WaitWord::Awake => joined(0, 0),
            WaitWord::Waiting(object) => joined(object, 1),
            WaitWord::Notified(object) => joined(object, 2),
        }
    }

    /// What a word says: `None` exactly where its bits 32 and 33 are both set. The bits from 34 on say nothing.
    #[tactic(auto, unfolding(crate::specs::Words::wait_object, crate::specs::Words::wait_state))]
    pub fn unpack(word: u64) -> Option<WaitWord>
        ensures { MatchOption result (wait_state word ≡ 3) (SaysOfWait word) }
    {
        match high_half(word) % 4 {
            0 => Some(WaitWord::Awake),
            1 => Some(WaitWord::Waiting(low_half(word))),
            2 => Some(WaitWord::Notified(low_half(word))),
            _ => None,
        }
    }
}

/// The word of a thread that is notified, from the one that it had while it waited: it names the same object.
#[tactic(auto, unfolding(crate::specs::Words::wait_word, crate::specs::Words::wait_object))]
pub fn notified(word: u64) -> u64
    ensures { result ≡ wait_word (wait_object word) 2 }
{
    joined(low_half(word), 2)
}

/// How far the initialization of a class is (JLS 12.4.2).
#[derive(Clone, Copy)]
pub enum ClassWord {
    /// It has not begun.
    Unready,
    /// The thread of this number is at it.
    Claimed(u8),
    /// The class is initialized.
    Ready,
    /// It failed, and isn't tried again.
    Bad,
}

impl ClassWord {
    /// The word that says this.
    #[tactic(auto, unfolding(crate::specs::Words::class_word))]
    pub fn pack(self) -> u64
        ensures { result ≡ class_word_of self }
    {
        match self {
            ClassWord::Unready => 0,
            ClassWord::Claimed(thread) => 1 + thread as u64 * 256,
            ClassWord::Ready => 2,
            ClassWord::Bad => 3,
        }
    }

    /// What a word says: `None` exactly where its lowest eight bits are above 3. The bits from 16 on say nothing, and
    /// those from 8 on only where a thread is at it.
    pub fn unpack(word: u64) -> Option<ClassWord>
        ensures { MatchOption result (3 < class_state word) (SaysOfClass word) }
    {
        match class_state(word) {
            0 => Some(ClassWord::Unready),
            1 => Some(ClassWord::Claimed(class_thread(word))),
            2 => Some(ClassWord::Ready),
            3 => Some(ClassWord::Bad),
            _ => None,
        }
    }
}

/// How far a class is, by its word: 0 to 3 in the order of [`ClassWord`]; a greater number says nothing.
#[tactic(auto, unfolding(crate::specs::Words::class_state))]
pub fn class_state(word: u64) -> u8
    ensures { result ≡ class_state word }
{
    (word % 256) as u8
}

/// The thread that is at the class's initialization, where the class's word says that one is.
#[tactic(auto, unfolding(crate::specs::Words::class_thread))]
pub fn class_thread(word: u64) -> u8
    ensures { result ≡ class_thread word }
{
    (word / 256 % 256) as u8
}

fn joined(low: u32, high: u32) -> u64
    ensures { result ≡ low + high * 2 ^ 32 }
{
    low as u64 + high as u64 * 0x1_0000_0000
}

fn low_half(word: u64) -> u32
    ensures { result ≡ word % 2 ^ 32 }
{
    (word % 0x1_0000_0000) as u32
}

fn high_half(word: u64) -> u32
    ensures { result ≡ word / 2 ^ 32 }
{
    (word / 0x1_0000_0000) as u32
}
