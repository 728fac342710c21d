//! The table itself: a class comes after its superclass, and its number is one more than its index.

use crate::{BuiltinClass, BuiltinField, BuiltinMethod, Native, number};
use access_flags::{ABSTRACT, FINAL, INTERFACE, PUBLIC, STATIC};

macro_rules! method {
    ($flags:expr, $name:literal $descriptor:literal => $native:ident) => {
        BuiltinMethod {
            name: $name,
            descriptor: $descriptor,
            flags: $flags,
            native: Native::$native,
        }
    };
}

// A class below Throwable: the message is its word, and it has the two constructors.
macro_rules! exception {
    ($number:ident: $name:literal extends $super_number:ident) => {
        BuiltinClass {
            number: number::$number,
            name: $name,
            super_number: number::$super_number,
            interfaces: &[],
            flags: PUBLIC,
            words: 1,
            fields: &[],
            methods: &EXCEPTION_METHODS,
        }
    };
}

const OBJECT_METHODS: [BuiltinMethod; 5] = [
    method!(PUBLIC, "<init>" "()V" => ObjectInit),
    method!(PUBLIC | FINAL, "wait" "()V" => ObjectWait),
    method!(PUBLIC | FINAL, "notify" "()V" => ObjectNotify),
    method!(PUBLIC | FINAL, "notifyAll" "()V" => ObjectNotifyAll),
    method!(PUBLIC, "equals" "(Ljava/lang/Object;)Z" => ObjectEquals),
];

const STRING_METHODS: [BuiltinMethod; 4] = [
    method!(PUBLIC, "length" "()I" => StringLength),
    method!(PUBLIC, "charAt" "(I)C" => StringCharAt),
    method!(PUBLIC, "equals" "(Ljava/lang/Object;)Z" => StringEquals),
    method!(PUBLIC, "concat" "(Ljava/lang/String;)Ljava/lang/String;" => StringConcat),
];

const STRING_BUILDER_METHODS: [BuiltinMethod; 9] = [
    method!(PUBLIC, "<init>" "()V" => BuilderInit),
    method!(PUBLIC, "<init>" "(Ljava/lang/String;)V" => BuilderInitText),
    method!(PUBLIC, "append" "(I)Ljava/lang/StringBuilder;" => AppendInt),
    method!(PUBLIC, "append" "(J)Ljava/lang/StringBuilder;" => AppendLong),
    method!(PUBLIC, "append" "(C)Ljava/lang/StringBuilder;" => AppendChar),
    method!(PUBLIC, "append" "(Z)Ljava/lang/StringBuilder;" => AppendBoolean),
    method!(PUBLIC, "append" "(Ljava/lang/String;)Ljava/lang/StringBuilder;" => AppendString),
    method!(PUBLIC, "length" "()I" => BuilderLength),
    method!(PUBLIC, "toString" "()Ljava/lang/String;" => BuilderToString),
];

const PRINT_STREAM_METHODS: [BuiltinMethod; 6] = [
    method!(PUBLIC, "println" "()V" => PrintlnEmpty),
    method!(PUBLIC, "println" "(I)V" => PrintlnInt),
    method!(PUBLIC, "println" "(J)V" => PrintlnLong),
    method!(PUBLIC, "println" "(C)V" => PrintlnChar),
    method!(PUBLIC, "println" "(Z)V" => PrintlnBoolean),
    method!(PUBLIC, "println" "(Ljava/lang/String;)V" => PrintlnString),
];

const THREAD_METHODS: [BuiltinMethod; 9] = [
    method!(PUBLIC, "<init>" "()V" => ThreadInit),
    method!(PUBLIC, "<init>" "(Ljava/lang/Runnable;)V" => ThreadInitTarget),
    method!(PUBLIC, "start" "()V" => ThreadStart),
    method!(PUBLIC, "run" "()V" => ThreadRun),
    method!(PUBLIC | FINAL, "join" "()V" => ThreadJoin),
    method!(PUBLIC | FINAL, "setPriority" "(I)V" => ThreadSetPriority),
    method!(PUBLIC | FINAL, "getPriority" "()I" => ThreadGetPriority),
    method!(PUBLIC | STATIC, "currentThread" "()Ljava/lang/Thread;" => ThreadCurrentThread),
    method!(PUBLIC | STATIC, "yield" "()V" => ThreadYield),
];

const THROWABLE_METHODS: [BuiltinMethod; 3] = [
    method!(PUBLIC, "<init>" "()V" => ThrowableInit),
    method!(PUBLIC, "<init>" "(Ljava/lang/String;)V" => ThrowableInitMessage),
    method!(PUBLIC, "getMessage" "()Ljava/lang/String;" => ThrowableGetMessage),
];

const EXCEPTION_METHODS: [BuiltinMethod; 2] = [
    method!(PUBLIC, "<init>" "()V" => ThrowableInit),
    method!(PUBLIC, "<init>" "(Ljava/lang/String;)V" => ThrowableInitMessage),
];

pub(crate) static CLASSES: [BuiltinClass; 28] = [
    BuiltinClass {
        number: number::OBJECT,
        name: "java/lang/Object",
        super_number: 0,
        interfaces: &[],
        flags: PUBLIC,
        words: 0,
        fields: &[],
        methods: &OBJECT_METHODS,
    },
    BuiltinClass {
        number: number::CLASS,
        name: "java/lang/Class",
        super_number: number::OBJECT,
        interfaces: &[],
        flags: PUBLIC | FINAL,
        words: 0,
        fields: &[],
        methods: &[],
    },
    BuiltinClass {
        number: number::STRING,
        name: "java/lang/String",
        super_number: number::OBJECT,
        interfaces: &[],
        flags: PUBLIC | FINAL,
        words: 1,
        fields: &[],
        methods: &STRING_METHODS,
    },
    BuiltinClass {
        number: number::SYSTEM,
        name: "java/lang/System",
        super_number: number::OBJECT,
        interfaces: &[],
        flags: PUBLIC | FINAL,
        words: 0,
        fields: &[BuiltinField {
            name: "out",
            descriptor: "Ljava/io/PrintStream;",
            flags: PUBLIC | STATIC | FINAL,
        }],
        methods: &[],
    },
    BuiltinClass {
        number: number::PRINT_STREAM,
        name: "java/io/PrintStream",
        super_number: number::OBJECT,
        interfaces: &[],
        flags: PUBLIC,
        words: 0,
        fields: &[],
        methods: &PRINT_STREAM_METHODS,
    },
    BuiltinClass {
        number: number::RUNNABLE,
        name: "java/lang/Runnable",
        super_number: number::OBJECT,
        interfaces: &[],
        flags: PUBLIC | INTERFACE | ABSTRACT,
        words: 0,
        fields: &[],
        methods: &[method!(PUBLIC | ABSTRACT, "run" "()V" => RunnableRun)],
    },
    BuiltinClass {
        number: number::THREAD,
        name: "java/lang/Thread",
        super_number: number::OBJECT,
        interfaces: &[number::RUNNABLE],
        flags: PUBLIC,
        words: 3,
        fields: &[],
        methods: &THREAD_METHODS,
    },
    BuiltinClass {
        number: number::THROWABLE,
        name: "java/lang/Throwable",
        super_number: number::OBJECT,
        interfaces: &[],
        flags: PUBLIC,
        words: 1,
        fields: &[],
        methods: &THROWABLE_METHODS,
    },
    exception!(EXCEPTION: "java/lang/Exception" extends THROWABLE),
    exception!(RUNTIME_EXCEPTION: "java/lang/RuntimeException" extends EXCEPTION),
    exception!(ERROR: "java/lang/Error" extends THROWABLE),
    exception!(INTERRUPTED_EXCEPTION: "java/lang/InterruptedException" extends EXCEPTION),
    exception!(ARITHMETIC_EXCEPTION: "java/lang/ArithmeticException" extends RUNTIME_EXCEPTION),
    exception!(NULL_POINTER_EXCEPTION: "java/lang/NullPointerException" extends RUNTIME_EXCEPTION),
    exception!(INDEX_OUT_OF_BOUNDS_EXCEPTION: "java/lang/IndexOutOfBoundsException"
        extends RUNTIME_EXCEPTION),
    exception!(ARRAY_INDEX_OUT_OF_BOUNDS_EXCEPTION: "java/lang/ArrayIndexOutOfBoundsException"
        extends INDEX_OUT_OF_BOUNDS_EXCEPTION),
    exception!(NEGATIVE_ARRAY_SIZE_EXCEPTION: "java/lang/NegativeArraySizeException"
        extends RUNTIME_EXCEPTION),
    exception!(ARRAY_STORE_EXCEPTION: "java/lang/ArrayStoreException" extends RUNTIME_EXCEPTION),
    exception!(CLASS_CAST_EXCEPTION: "java/lang/ClassCastException" extends RUNTIME_EXCEPTION),
    exception!(ILLEGAL_MONITOR_STATE_EXCEPTION: "java/lang/IllegalMonitorStateException"
        extends RUNTIME_EXCEPTION),
    exception!(ILLEGAL_ARGUMENT_EXCEPTION: "java/lang/IllegalArgumentException"
        extends RUNTIME_EXCEPTION),
    exception!(ILLEGAL_THREAD_STATE_EXCEPTION: "java/lang/IllegalThreadStateException"
        extends ILLEGAL_ARGUMENT_EXCEPTION),
    exception!(ILLEGAL_STATE_EXCEPTION: "java/lang/IllegalStateException"
        extends RUNTIME_EXCEPTION),
    exception!(LINKAGE_ERROR: "java/lang/LinkageError" extends ERROR),
    exception!(NO_CLASS_DEF_FOUND_ERROR: "java/lang/NoClassDefFoundError" extends LINKAGE_ERROR),
    exception!(EXCEPTION_IN_INITIALIZER_ERROR: "java/lang/ExceptionInInitializerError"
        extends LINKAGE_ERROR),
    exception!(INCOMPATIBLE_CLASS_CHANGE_ERROR: "java/lang/IncompatibleClassChangeError"
        extends LINKAGE_ERROR),
    BuiltinClass {
        number: number::STRING_BUILDER,
        name: "java/lang/StringBuilder",
        super_number: number::OBJECT,
        interfaces: &[],
        flags: PUBLIC | FINAL,
        words: 1,
        fields: &[],
        methods: &STRING_BUILDER_METHODS,
    },
];
