//! Programs to be executed, as texts of the assembler.

/// A class of one of the programs.
#[derive(Clone, Copy)]
pub enum Class {
    /// The least int divided by -1, the remainder, and a division by zero.
    Divides,
    /// A static method that calls itself without end.
    Recurses,
    /// A thread that enters two monitors, one inside the other.
    Locker,
    /// Prints 1, and starts two threads that enter the same two monitors in opposite orders.
    Crosswise,
    /// Three threads that go round without end.
    Spins,
    /// Starts two threads, each of which prints its number.
    Tells,
    /// Two threads that each count to 100 under a monitor, and then their sum.
    Counts,
    /// Three threads wait on one object. Main notifies all once they wait, each then prints 1, and main prints 2 after
    /// them.
    Waits,
    /// Starts the number of threads that `begin` is given, which do nothing.
    Many,
    /// Starts 254 threads.
    Starts254,
    /// Starts 255 threads.
    Starts255,
    /// Enters one monitor without end.
    Enters,
    /// A thread dies with a monitor, which main then wants.
    Holds,
    /// Two threads die, the one of a null, the other of a wait without the monitor; main prints 1.
    Dies,
    /// A builder gets a text, an int, a char, a truth value, null and a long, and its text is printed.
    Joins,
    /// Texts that are joined are compared, and a character is asked for that isn't there.
    Compares,
    /// Starts Low and High, which enter one monitor.
    Pair,
    /// Sets x and y to 11 and 12.
    Low,
    /// Prints x in a text, and y.
    High,
    /// A synchronized main joins a thread that never began, notifies its class, and starts the thread that it is.
    StartsAgain,
}

/// The text of the class One, whose main method prints a sum.
pub const ONE_TEXT: &str = "class One
method 9 main ([Ljava/lang/String;)V stack 3 locals 1
getstatic java/lang/System out Ljava/io/PrintStream;
iconst_2
iconst_3
iadd
invokevirtual java/io/PrintStream println (I)V
return
end
";

const DIVIDES: &str = "class Main
method 9 main ([Ljava/lang/String;)V stack 3 locals 1
getstatic java/lang/System out Ljava/io/PrintStream;
ldc int -2147483648
iconst_m1
idiv
invokevirtual java/io/PrintStream println (I)V
getstatic java/lang/System out Ljava/io/PrintStream;
ldc int -2147483648
iconst_m1
irem
invokevirtual java/io/PrintStream println (I)V
getstatic java/lang/System out Ljava/io/PrintStream;
iconst_5
iconst_0
idiv
invokevirtual java/io/PrintStream println (I)V
return
end
";

const RECURSES: &str = "class Main
method 9 main ([Ljava/lang/String;)V stack 0 locals 1
invokestatic Main again ()V
return
end
method 9 again ()V stack 0 locals 0
invokestatic Main again ()V
return
end
";

const LOCKER: &str = "class Locker
super java/lang/Thread
field 18 outer Ljava/lang/Object;
field 18 inner Ljava/lang/Object;
method 1 <init> (Ljava/lang/Object;Ljava/lang/Object;)V stack 2 locals 3
aload_0
invokespecial java/lang/Thread <init> ()V
aload_0
aload_1
putfield Locker outer Ljava/lang/Object;
aload_0
aload_2
putfield Locker inner Ljava/lang/Object;
return
end
method 1 run ()V stack 2 locals 3
aload_0
getfield Locker outer Ljava/lang/Object;
dup
astore_1
monitorenter
aload_0
getfield Locker inner Ljava/lang/Object;
dup
astore_2
monitorenter
aload_2
monitorexit
aload_1
monitorexit
return
end
";

const CROSSWISE: &str = "class Main
method 9 main ([Ljava/lang/String;)V stack 4 locals 3
getstatic java/lang/System out Ljava/io/PrintStream;
iconst_1
invokevirtual java/io/PrintStream println (I)V
new java/lang/Object
dup
invokespecial java/lang/Object <init> ()V
astore_1
new java/lang/Object
dup
invokespecial java/lang/Object <init> ()V
astore_2
new Locker
dup
aload_1
aload_2
invokespecial Locker <init> (Ljava/lang/Object;Ljava/lang/Object;)V
invokevirtual Locker start ()V
new Locker
dup
aload_2
aload_1
invokespecial Locker <init> (Ljava/lang/Object;Ljava/lang/Object;)V
invokevirtual Locker start ()V
return
end
";

const SPINS: &str = "class Main
super java/lang/Thread
method 1 <init> ()V stack 1 locals 1
aload_0
invokespecial java/lang/Thread <init> ()V
return
end
method 1 run ()V stack 0 locals 1
again:
frame Main /
goto again
end
method 9 main ([Ljava/lang/String;)V stack 2 locals 1
new Main
dup
invokespecial Main <init> ()V
invokevirtual Main start ()V
new Main
dup
invokespecial Main <init> ()V
invokevirtual Main start ()V
again:
frame [Ljava/lang/String; /
goto again
end
";

const TELLS: &str = "class Main
super java/lang/Thread
field 18 number I
method 1 <init> (I)V stack 2 locals 2
aload_0
invokespecial java/lang/Thread <init> ()V
aload_0
iload_1
putfield Main number I
return
end
method 1 run ()V stack 2 locals 1
getstatic java/lang/System out Ljava/io/PrintStream;
aload_0
getfield Main number I
invokevirtual java/io/PrintStream println (I)V
return
end
method 9 main ([Ljava/lang/String;)V stack 3 locals 1
new Main
dup
iconst_2
invokespecial Main <init> (I)V
invokevirtual Main start ()V
new Main
dup
iconst_3
invokespecial Main <init> (I)V
invokevirtual Main start ()V
return
end
";

const COUNTS: &str = "class Main
super java/lang/Thread
field 8 count I
method 1 <init> ()V stack 1 locals 1
aload_0
invokespecial java/lang/Thread <init> ()V
return
end
method 40 add ()V stack 2 locals 0
getstatic Main count I
iconst_1
iadd
putstatic Main count I
return
end
method 1 run ()V stack 1 locals 2
bipush 100
istore_1
again:
frame Main int /
iload_1
ifle done
invokestatic Main add ()V
iinc 1 -1
goto again
done:
frame Main int /
return
end
method 9 main ([Ljava/lang/String;)V stack 2 locals 3
new Main
dup
invokespecial Main <init> ()V
astore_1
new Main
dup
invokespecial Main <init> ()V
astore_2
aload_1
invokevirtual Main start ()V
aload_2
invokevirtual Main start ()V
aload_1
invokevirtual Main join ()V
aload_2
invokevirtual Main join ()V
getstatic java/lang/System out Ljava/io/PrintStream;
getstatic Main count I
invokevirtual java/io/PrintStream println (I)V
return
end
";

const WAITS: &str = "class Main
super java/lang/Thread
field 8 waiting I
method 1 <init> ()V stack 1 locals 1
aload_0
invokespecial java/lang/Thread <init> ()V
return
end
method 1 run ()V stack 2 locals 1
ldc class Main
monitorenter
getstatic Main waiting I
iconst_1
iadd
putstatic Main waiting I
ldc class Main
invokevirtual java/lang/Object wait ()V
ldc class Main
monitorexit
getstatic java/lang/System out Ljava/io/PrintStream;
iconst_1
invokevirtual java/io/PrintStream println (I)V
return
end
method 40 wake ()Z stack 2 locals 0
getstatic Main waiting I
iconst_3
if_icmpne early
ldc class Main
invokevirtual java/lang/Object notifyAll ()V
iconst_1
ireturn
early:
frame /
iconst_0
ireturn
end
method 9 main ([Ljava/lang/String;)V stack 2 locals 4
new Main
dup
invokespecial Main <init> ()V
astore_1
new Main
dup
invokespecial Main <init> ()V
astore_2
new Main
dup
invokespecial Main <init> ()V
astore_3
aload_1
invokevirtual Main start ()V
aload_2
invokevirtual Main start ()V
aload_3
invokevirtual Main start ()V
again:
frame [Ljava/lang/String; Main Main Main /
invokestatic Main wake ()Z
ifeq again
aload_1
invokevirtual Main join ()V
aload_2
invokevirtual Main join ()V
aload_3
invokevirtual Main join ()V
getstatic java/lang/System out Ljava/io/PrintStream;
iconst_2
invokevirtual java/io/PrintStream println (I)V
return
end
";

const MANY: &str = "class Many
super java/lang/Thread
method 1 <init> ()V stack 1 locals 1
aload_0
invokespecial java/lang/Thread <init> ()V
return
end
method 9 begin (I)V stack 2 locals 1
again:
frame int /
iload_0
ifle done
new Many
dup
invokespecial Many <init> ()V
invokevirtual Many start ()V
iinc 0 -1
goto again
done:
frame int /
return
end
";

const STARTS_254: &str = "class Some
method 9 main ([Ljava/lang/String;)V stack 1 locals 1
sipush 254
invokestatic Many begin (I)V
return
end
";

const STARTS_255: &str = "class More
method 9 main ([Ljava/lang/String;)V stack 1 locals 1
sipush 255
invokestatic Many begin (I)V
return
end
";

const ENTERS: &str = "class Main
method 9 main ([Ljava/lang/String;)V stack 1 locals 1
again:
frame [Ljava/lang/String; /
aload_0
monitorenter
goto again
end
";

const HOLDS: &str = "class Main
super java/lang/Thread
method 1 <init> ()V stack 1 locals 1
aload_0
invokespecial java/lang/Thread <init> ()V
return
end
method 1 run ()V stack 2 locals 1
ldc class Main
monitorenter
iconst_1
iconst_0
idiv
pop
return
end
method 9 main ([Ljava/lang/String;)V stack 2 locals 2
new Main
dup
invokespecial Main <init> ()V
astore_1
getstatic java/lang/System out Ljava/io/PrintStream;
iconst_1
invokevirtual java/io/PrintStream println (I)V
aload_1
invokevirtual Main start ()V
aload_1
invokevirtual Main join ()V
ldc class Main
monitorenter
return
end
";

const DIES: &str = "class Main
super java/lang/Thread
field 18 of Ljava/lang/Object;
method 1 <init> (Ljava/lang/Object;)V stack 2 locals 2
aload_0
invokespecial java/lang/Thread <init> ()V
aload_0
aload_1
putfield Main of Ljava/lang/Object;
return
end
method 1 run ()V stack 1 locals 1
aload_0
getfield Main of Ljava/lang/Object;
invokevirtual java/lang/Object wait ()V
return
end
method 9 main ([Ljava/lang/String;)V stack 3 locals 1
new Main
dup
aconst_null
invokespecial Main <init> (Ljava/lang/Object;)V
invokevirtual Main start ()V
new Main
dup
aload_0
invokespecial Main <init> (Ljava/lang/Object;)V
invokevirtual Main start ()V
getstatic java/lang/System out Ljava/io/PrintStream;
iconst_1
invokevirtual java/io/PrintStream println (I)V
return
end
";

const STARTS_AGAIN: &str = "class Main
method 41 main ([Ljava/lang/String;)V stack 2 locals 1
new java/lang/Thread
dup
invokespecial java/lang/Thread <init> ()V
invokevirtual java/lang/Thread join ()V
ldc class Main
invokevirtual java/lang/Object notify ()V
getstatic java/lang/System out Ljava/io/PrintStream;
iconst_1
invokevirtual java/io/PrintStream println (I)V
invokestatic java/lang/Thread currentThread ()Ljava/lang/Thread;
invokevirtual java/lang/Thread start ()V
return
end
";

const JOINS: &str = "class Main
method 9 main ([Ljava/lang/String;)V stack 4 locals 1
getstatic java/lang/System out Ljava/io/PrintStream;
new java/lang/StringBuilder
dup
invokespecial java/lang/StringBuilder <init> ()V
ldc str \"a\"
invokevirtual java/lang/StringBuilder append (Ljava/lang/String;)Ljava/lang/StringBuilder;
bipush 7
invokevirtual java/lang/StringBuilder append (I)Ljava/lang/StringBuilder;
bipush 98
invokevirtual java/lang/StringBuilder append (C)Ljava/lang/StringBuilder;
iconst_1
invokevirtual java/lang/StringBuilder append (Z)Ljava/lang/StringBuilder;
aconst_null
invokevirtual java/lang/StringBuilder append (Ljava/lang/String;)Ljava/lang/StringBuilder;
ldc2_w -5
invokevirtual java/lang/StringBuilder append (J)Ljava/lang/StringBuilder;
invokevirtual java/lang/StringBuilder toString ()Ljava/lang/String;
invokevirtual java/io/PrintStream println (Ljava/lang/String;)V
return
end
";

const COMPARES: &str = "class Main
method 9 main ([Ljava/lang/String;)V stack 4 locals 1
getstatic java/lang/System out Ljava/io/PrintStream;
ldc str \"ab\"
ldc str \"\"
invokevirtual java/lang/String concat (Ljava/lang/String;)Ljava/lang/String;
ldc str \"ab\"
if_acmpne other
iconst_1
goto tell
other:
frame [Ljava/lang/String; / java/io/PrintStream
iconst_0
tell:
frame [Ljava/lang/String; / java/io/PrintStream int
invokevirtual java/io/PrintStream println (Z)V
getstatic java/lang/System out Ljava/io/PrintStream;
ldc str \"ab\"
ldc str \"c\"
invokevirtual java/lang/String concat (Ljava/lang/String;)Ljava/lang/String;
ldc str \"abc\"
invokevirtual java/lang/String equals (Ljava/lang/Object;)Z
invokevirtual java/io/PrintStream println (Z)V
ldc str \"ab\"
iconst_2
invokevirtual java/lang/String charAt (I)C
pop
return
end
";

const PAIR: &str = "class Main
field 8 lock Ljava/lang/Object;
field 8 x I
field 8 y I
method 9 main ([Ljava/lang/String;)V stack 3 locals 1
new java/lang/Object
dup
invokespecial java/lang/Object <init> ()V
putstatic Main lock Ljava/lang/Object;
iconst_1
putstatic Main x I
iconst_2
putstatic Main y I
new Low
dup
invokespecial Low <init> ()V
invokevirtual Low start ()V
new High
dup
invokespecial High <init> ()V
invokevirtual High start ()V
return
end
";

const LOW: &str = "class Low
super java/lang/Thread
method 1 <init> ()V stack 1 locals 1
aload_0
invokespecial java/lang/Thread <init> ()V
return
end
method 1 run ()V stack 1 locals 1
getstatic Main lock Ljava/lang/Object;
monitorenter
bipush 11
putstatic Main x I
bipush 12
putstatic Main y I
getstatic Main lock Ljava/lang/Object;
monitorexit
return
end
";

const HIGH: &str = "class High
super java/lang/Thread
method 1 <init> ()V stack 1 locals 1
aload_0
invokespecial java/lang/Thread <init> ()V
return
end
method 1 run ()V stack 3 locals 1
getstatic Main lock Ljava/lang/Object;
monitorenter
getstatic java/lang/System out Ljava/io/PrintStream;
new java/lang/StringBuilder
dup
invokespecial java/lang/StringBuilder <init> ()V
ldc str \"x=\"
invokevirtual java/lang/StringBuilder append (Ljava/lang/String;)Ljava/lang/StringBuilder;
getstatic Main x I
invokevirtual java/lang/StringBuilder append (I)Ljava/lang/StringBuilder;
invokevirtual java/lang/StringBuilder toString ()Ljava/lang/String;
invokevirtual java/io/PrintStream println (Ljava/lang/String;)V
getstatic java/lang/System out Ljava/io/PrintStream;
getstatic Main y I
invokevirtual java/io/PrintStream println (I)V
getstatic Main lock Ljava/lang/Object;
monitorexit
return
end
";

/// The name of its file, and its text.
pub(crate) fn file_of(class: Class) -> (&'static str, &'static str) {
    match class {
        Class::Divides => ("Main.class", DIVIDES),
        Class::Recurses => ("Main.class", RECURSES),
        Class::Locker => ("Locker.class", LOCKER),
        Class::Crosswise => ("Main.class", CROSSWISE),
        Class::Spins => ("Main.class", SPINS),
        Class::Tells => ("Main.class", TELLS),
        Class::Counts => ("Main.class", COUNTS),
        Class::Waits => ("Main.class", WAITS),
        Class::Many => ("Many.class", MANY),
        Class::Starts254 => ("Some.class", STARTS_254),
        Class::Starts255 => ("More.class", STARTS_255),
        Class::Enters => ("Main.class", ENTERS),
        Class::Holds => ("Main.class", HOLDS),
        Class::Dies => ("Main.class", DIES),
        Class::StartsAgain => ("Main.class", STARTS_AGAIN),
        Class::Joins => ("Main.class", JOINS),
        Class::Compares => ("Main.class", COMPARES),
        Class::Pair => ("Main.class", PAIR),
        Class::Low => ("Low.class", LOW),
        Class::High => ("High.class", HIGH),
    }
}
